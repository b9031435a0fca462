//! Reading the pieces of a line that memory is taken for: its words, the runs of a journal, the octets of a reply.

ghost use Rattle.std.specs.Prelude.{◌≡◌, ◌==◌, ◌++◌, ◌∷◌, map, IfOk, MatchOption, Option, None, Some, ◌≢◌, ◌↔◌, IsTrue};
ghost use Rattle.std.specs.List.{slice_split};
ghost use Rattle.hex.specs.Hex.{encode_lower};
ghost use Rattle.trace_text.specs.Fronts.{words_left};
ghost use Rattle.trace_text.specs.IsLine.{AreLongest, FitsRun, FitsRuns, IsReply, FitsReply, IsOctets};
ghost use Rattle.trace_text.specs.Reads.{Reads};
ghost use Rattle.trace_text.specs.Texts.{run_word, reply_text, octets_text};
ghost use Rattle.trace_text.specs.Words.{Lacks};

use crate::lines::Runs;
use crate::numbers::word32;
use hex::FromHexError;
use sig_types::Octets;
use std::alloc::{AllocError, Global};

/// The words that are left.
pub fn words_of(alloc: Global, words: Option<&[u8]>) -> Result<Vec<&[u8]>, AllocError>
    ensures { IfOk result (λ list. map (λ word. word.now) list.items ≡ words_left words.entry) }
{
    match words {
        Some(bytes) => words_between(alloc, bytes),
        None => Ok(Vec::new(alloc)),
    }
}

/// The words between the spaces.
fn words_between(alloc: Global, bytes: &[u8]) -> Result<Vec<&[u8]>, AllocError>
    ensures { IfOk result (λ words. map (λ word. word.now) words.items ≡ slice_split (λ b. b == 32) bytes.now) }
{
    bytes.split(|b| *b == b' ').collect(alloc)
}

/// The runs, in longest runs, whose words these are.
pub fn runs_of(alloc: Global, words: &[&[u8]]) -> Result<Option<Runs>, AllocError>
    ensures { IfOk result (Reads (λ runs. AreLongest runs × FitsRuns runs) (map run_word) (map (λ word. word.now) words.now)) }
{
    if words.is_empty() {
        return Ok(None);
    }
    let mut runs = Vec::new(alloc);
    let mut before = None;
    for word in words {
        let run = match run_of(word) {
            Some(run) => run,
            None => return Ok(None),
        };
        if run.1 == 0 {
            return Ok(None);
        }
        if is_pass(before, run.0) {
            return Ok(None);
        }
        before = Some(run.0);
        runs.push(run)?;
    }
    Ok(Some(Runs::new(runs)))
}

/// Whether the pass is the one before.
fn is_pass(before: Option<u32>, pass: u32) -> bool
    ensures { IsTrue result ↔ (before ≡ Some pass) }
{
    match before {
        Some(last) => last == pass,
        None => false,
    }
}

/// The run whose word it is.
fn run_of(word: &[u8]) -> Option<(u32, u32)>
    ensures { Reads FitsRun run_word word.now result }
{
    let (pass, count) = match around(word, b'*') {
        Some(parts) => parts,
        None => return None,
    };
    let pass = match word32(pass) {
        Some(pass) => pass,
        None => return None,
    };
    match word32(count) {
        Some(count) => Some((pass, count)),
        None => None,
    }
}

/// What is before the first of these bytes, and what after it.
pub fn around(bytes: &[u8], byte: u8) -> Option<(&[u8], &[u8])>
    ensures { MatchOption result (Lacks byte bytes.now) (λ parts. Lacks byte parts.0.now × (bytes.now ≡ parts.0.now ++ byte ∷ parts.1.now)) }
{
    for i in 0..bytes.len() {
        if bytes[i] == byte {
            return Some((&bytes[..i], &bytes[i + 1..]));
        }
    }
    None
}

/// The reply whose word it is: octets in lower-case hexadecimal, or none.
pub fn reply_of(alloc: Global, word: &[u8]) -> Result<Option<Option<Octets>>, AllocError>
    ensures { IfOk result (Reads (λ reply. IsReply reply × FitsReply reply) reply_text word.now) }
{
    match word {
        [b'-'] => Ok(Some(None)),
        _ => match octets_of(alloc, word)? {
            Some(octets) => Ok(Some(Some(octets))),
            None => Ok(None),
        },
    }
}

/// The 1 to 1,472 octets of some lower-case hexadecimal.
fn octets_of(alloc: Global, word: &[u8]) -> Result<Option<Octets>, AllocError>
    ensures { IfOk result (Reads IsOctets octets_text word.now) }
{
    let bytes = match hex::decode(alloc, word) {
        Ok(bytes) => bytes,
        Err(error) => return unread(error),
    };
    if !is_lower(alloc, word, &bytes)? {
        return Ok(None);
    }
    if bytes.is_empty() {
        return Ok(None);
    }
    match Octets::try_from(bytes.as_slice()) {
        Ok(octets) => Ok(Some(octets)),
        Err(_) => Ok(None),
    }
}

/// Nothing is read of what is not hexadecimal.
fn unread(error: FromHexError) -> Result<Option<Octets>, AllocError>
    ensures { IfOk result (λ found. (found ≡ None) × (error ≢ FromHexError.OutOfMemory)) }
{
    match error {
        FromHexError::OutOfMemory => Err(AllocError),
        FromHexError::OddLength => Ok(None),
        FromHexError::InvalidStringLength => Ok(None),
        FromHexError::InvalidHexCharacter { c: _, index: _ } => Ok(None),
    }
}

/// Whether the word is the bytes in lower-case hexadecimal.
fn is_lower(alloc: Global, word: &[u8], bytes: &[u8]) -> Result<bool, AllocError>
    ensures { IfOk result (λ lower. IsTrue lower ↔ (word.now ≡ encode_lower bytes.now)) }
{
    let text = hex::encode(alloc, bytes)?;
    Ok(text.as_bytes() == word)
}
