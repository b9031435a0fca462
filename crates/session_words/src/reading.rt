//! What a line of a session asks, word by word. No memory is taken.

ghost use Rattle.std.specs.Prelude.{◌≡◌, ◌≤◌, ◌∷◌, [], ℕ, List, Some, None, IfSome, MatchOption, bytes_eq, decimal};
ghost use Rattle.session_words.specs.Requests.{words_of, number_to, switch_of, stream_of, octets_of, tick_of, veh_of, ped_of, preempt_of, frame_of, is_form, request_of_words, request_of, untaken_word};
ghost use Rattle.session_words.specs.Words.{HasWords};

use crate::places::place_of;
use crate::request::{Request, Untaken};
use arrayvec::ArrayVec;
use hex::decode_to_slice;
use itoa::Buffer;
use sig_types::{Field, Octets, Way};
use std::str;

/// How many octets the longest line has that is taken.
const LONGEST: usize = 4096;

/// The first four words of a line, and how many it has; 5 represents more than four. A word that it hasn't is empty.
#[derive(Clone, Copy)]
struct Words<'a> {
    first: &'a [u8],
    second: &'a [u8],
    third: &'a [u8],
    fourth: &'a [u8],
    count: u8,
}

/// The first word of a line, and what follows the space that ends it.
fn first_word(line: &[u8]) -> (&[u8], Option<&[u8]>)
    ensures { MatchOption result.1 (words_of line.now ≡ result.0.now ∷ []) (λ rest. words_of line.now ≡ result.0.now ∷ words_of rest.now) }
{
    match place_of(b' ', line) {
        Some(end) => (&line[..end], Some(&line[end + 1..])),
        None => (line, None),
    }
}

/// The words of a line.
fn words_in(line: &[u8]) -> Words<'_>
    ensures { HasWords (words_of line.now) result }
{
    let none = &line[..0];
    let mut words = Words {
        first: none,
        second: none,
        third: none,
        fourth: none,
        count: 1,
    };
    let (first, behind_first) = first_word(line);
    words.first = first;
    let second_on = match behind_first {
        Some(rest) => rest,
        None => return words,
    };
    let (second, behind_second) = first_word(second_on);
    words.second = second;
    words.count = 2;
    let third_on = match behind_second {
        Some(rest) => rest,
        None => return words,
    };
    let (third, behind_third) = first_word(third_on);
    words.third = third;
    words.count = 3;
    let fourth_on = match behind_third {
        Some(rest) => rest,
        None => return words,
    };
    let (fourth, behind_fourth) = first_word(fourth_on);
    words.fourth = fourth;
    words.count = if behind_fourth.is_some() { 5 } else { 4 };
    words
}

/// Whether a text is that of a number: no sign, and no zero before the first digit.
fn is_number(text: &str, n: u32) -> bool
    ensures { result ≡ bytes_eq text.now (decimal n) }
{
    text == Buffer::new().format(n)
}

/// The number from 1 to a last one that a word is, in decimal digits: no sign, and no zero before the first.
fn number_up_to(last: u32, word: &[u8]) -> Option<u32>
    ensures value { result ≡ number_to last word.now }
    ensures within { IfSome result (λ n. (1 ≤ n) × (n ≤ last)) }
{
    let text = match str::from_utf8(word) {
        Ok(text) => text,
        Err(_) => return None,
    };
    match text.parse::<u32>() {
        Ok(n) => {
            if 1 <= n && n <= last && is_number(text, n) {
                Some(n)
            } else {
                None
            }
        }
        Err(_) => None,
    }
}

/// Whether a word is this text.
fn is(word: &[u8], text: &str) -> bool
    ensures { result ≡ bytes_eq word.now text.now }
{
    word == text.as_bytes()
}

/// What the words `on` and `off` say.
fn switch_in(word: &[u8]) -> Option<bool>
    ensures { result ≡ switch_of word.now }
{
    if is(word, "on") {
        Some(true)
    } else if is(word, "off") {
        Some(false)
    } else {
        None
    }
}

/// The stream that a word names.
fn stream_in(word: &[u8]) -> Option<Way>
    ensures { result ≡ stream_of word.now }
{
    if is(word, "poll") {
        Some(Way::Poll)
    } else if is(word, "load") {
        Some(Way::Load)
    } else if is(word, "priority") {
        Some(Way::Prio)
    } else {
        None
    }
}

/// The octets that a word of hexadecimal digits gives, at most 1,472.
fn octets_in(word: &[u8]) -> Option<Octets>
    ensures { MatchOption result (octets_of word.now ≡ None) (λ octets. octets_of word.now ≡ Some octets.items) }
{
    let count = word.len() / 2;
    if 1472 < count {
        return None;
    }
    let mut room = [0u8; 1472];
    match decode_to_slice(word, &mut room[..count]) {
        Ok(()) => {
            let mut octets = ArrayVec::new();
            let _ = octets.try_extend_from_slice(&room[..count]);
            Some(octets)
        }
        Err(_) => None,
    }
}

/// `tick N`
fn tick(words: Words<'_>, left: u32) -> Result<Request, Untaken>
    ensures { (all : List (List ℕ)) → HasWords all words.entry → result ≡ tick_of left all }
{
    match number_up_to(left, words.second) {
        Some(n) => Ok(Request::Tick(n)),
        None => Err(Untaken::Ticks),
    }
}

/// `veh CAB PHASE on` or `off`
fn veh(words: Words<'_>, cabinets: u32) -> Result<Request, Untaken>
    ensures { (all : List (List ℕ)) → HasWords all words.entry → result ≡ veh_of cabinets all }
{
    let cab = match number_up_to(cabinets, words.second) {
        Some(cab) => cab,
        None => return Err(Untaken::Cabinet),
    };
    let phase = match number_up_to(16, words.third) {
        Some(phase) => phase as u8,
        None => return Err(Untaken::Phase),
    };
    match switch_in(words.fourth) {
        Some(on) => Ok(Request::Input(cab, Field::Veh { phase, on })),
        None => Err(Untaken::On),
    }
}

/// `ped CAB PHASE`
fn ped(words: Words<'_>, cabinets: u32) -> Result<Request, Untaken>
    ensures { (all : List (List ℕ)) → HasWords all words.entry → result ≡ ped_of cabinets all }
{
    let cab = match number_up_to(cabinets, words.second) {
        Some(cab) => cab,
        None => return Err(Untaken::Cabinet),
    };
    match number_up_to(16, words.third) {
        Some(phase) => Ok(Request::Input(cab, Field::Ped { phase: phase as u8 })),
        None => Err(Untaken::Phase),
    }
}

/// `preempt CAB N on` or `off`
fn preempt(words: Words<'_>, cabinets: u32) -> Result<Request, Untaken>
    ensures { (all : List (List ℕ)) → HasWords all words.entry → result ≡ preempt_of cabinets all }
{
    let cab = match number_up_to(cabinets, words.second) {
        Some(cab) => cab,
        None => return Err(Untaken::Cabinet),
    };
    let number = match number_up_to(8, words.third) {
        Some(number) => number as u8,
        None => return Err(Untaken::Number),
    };
    match switch_in(words.fourth) {
        Some(on) => Ok(Request::Input(cab, Field::Preempt { number, on })),
        None => Err(Untaken::On),
    }
}

/// `frame CAB STREAM HEX`
fn frame(words: Words<'_>, cabinets: u32) -> Result<Request, Untaken>
    ensures { (all : List (List ℕ)) → HasWords all words.entry → result ≡ frame_of cabinets all }
{
    let cab = match number_up_to(cabinets, words.second) {
        Some(cab) => cab,
        None => return Err(Untaken::Cabinet),
    };
    let way = match stream_in(words.third) {
        Some(way) => way,
        None => return Err(Untaken::Stream),
    };
    match octets_in(words.fourth) {
        Some(octets) => Ok(Request::Frame(cab, way, octets)),
        None => Err(Untaken::Hex),
    }
}

/// Whether these are that many words, of which the first is this one.
fn is_form(words: Words<'_>, name: &str, many: u8) -> bool
    requires { many ≤ 4 }
    ensures { (all : List (List ℕ)) → HasWords all words.entry → result ≡ is_form name.now many all }
{
    is(words.first, name) && words.count == many
}

/// What words ask of that many cabinets, where that many ticks are left in the round.
fn request_in(words: Words<'_>, cabinets: u32, left: u32) -> Result<Request, Untaken>
    ensures { (all : List (List ℕ)) → HasWords all words.entry → result ≡ request_of_words cabinets left all }
{
    if is_form(words, "tick", 2) {
        tick(words, left)
    } else if is_form(words, "veh", 4) {
        veh(words, cabinets)
    } else if is_form(words, "ped", 3) {
        ped(words, cabinets)
    } else if is_form(words, "preempt", 4) {
        preempt(words, cabinets)
    } else if is_form(words, "frame", 4) {
        frame(words, cabinets)
    } else {
        Err(Untaken::Request)
    }
}

/// What a line, without its newline, asks of this number of cabinets, if this number of ticks is left in the round.
pub fn read_request(line: &[u8], cabinets: u32, left: u32) -> Result<Request, Untaken>
    requires cabinets { cabinets ≤ 64 }
    requires left { left ≤ 600 }
    ensures { result ≡ request_of cabinets left line.now }
{
    if line.len() > LONGEST {
        return Err(Untaken::Request);
    }
    request_in(words_in(line), cabinets, left)
}

/// The word that says why a request isn't accepted.
pub fn word_of(untaken: Untaken) -> &'static str
    ensures { result.now ≡ untaken_word untaken }
{
    match untaken {
        Untaken::Request => "request",
        Untaken::Cabinet => "cabinet",
        Untaken::Phase => "phase",
        Untaken::Number => "number",
        Untaken::On => "on",
        Untaken::Stream => "stream",
        Untaken::Hex => "hex",
        Untaken::Ticks => "ticks",
        Untaken::Full => "full",
    }
}
