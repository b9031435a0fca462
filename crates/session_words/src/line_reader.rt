//! The lines of a source, one after another. The reader holds what it read beyond a line, at most 8,192 bytes, so that a line
//! is given as soon as its newline has come: it reads only where it holds no newline.

ghost use Rattle.std.specs.Prelude.{◌≡◌, ◌<◌, ◌≤◌, ◌+◌, ◌⊎◌, ◌++◌, [], ℕ, List, true, false, None, Some, Ok, Err, take, drop, length, vec_len, vec_capacity, IfOk, IfSome, OnOk, OnErr};

use crate::places::place_of;
use io_edge::{Failed, Source};
use sig_types::NoMemory;
use std::alloc::Global;

/// How many bytes are asked for at a time.
const PIECE: usize = 4096;

/// How many bytes the longest line has that is given.
const LONGEST: usize = 4096;

/// What a reader came to.
#[derive(Clone, Copy, PartialEq, Eq)]
pub enum Next {
    /// A line of at most 4,096 bytes: `LineReader::line` has it.
    Line,
    /// A longer line, whose bytes were dropped.
    Long,
    /// The end of the input. Bytes after the last newline are not a line.
    End,
}

/// Why no line was read. What was read of it is lost.
#[derive(Clone, Copy, PartialEq, Eq)]
pub enum LineStop {
    /// A read failed.
    Fault,
    /// After 18,446,744,073,709,551,615 reads the line had still not ended.
    Endless,
}

/// Why the first line was not read. What was read of it is lost.
#[derive(Clone, Copy, PartialEq, Eq)]
pub enum FirstStop {
    /// A read failed.
    Fault,
    /// It has more bytes than are taken.
    TooLong,
    /// Memory was refused.
    NoMemory,
}

/// Reads the lines of a source.
#[derive(Drop)]
pub struct LineReader {
    held: Vec<u8>,
    at: usize,
    start: usize,
    count: usize,
    ghost within: { at ≤ vec_len held },
    ghost given: { start + count ≤ vec_len held },
    ghost few: { vec_len held ≤ 8192 },
    ghost roomy: { 8192 ≤ vec_capacity held },
}

impl LineReader {
    ghost use Rattle.io_edge.specs.Edge.{Rises, Stays, told_as};
    ghost use Rattle.session_words.specs.Lines.{Lacks, IsCut, first_line};
    ghost use Rattle.session_words.specs.Unread.{held_of, given_line, unread, behind_told, Gives, GivesHeld};

    /// A reader that holds nothing.
    pub fn new(alloc: Global) -> Result<LineReader, NoMemory>
        ensures { IfOk result (λ reader. held_of reader ≡ []) }
    {
        match Vec::with_capacity(alloc, 8192) {
            Ok(held) => Ok(LineReader {
                held,
                at: 0,
                start: 0,
                count: 0,
            }),
            Err(_) => Err(NoMemory),
        }
    }

    /// The line that was given last.
    pub fn line(&self) -> &[u8]
        ensures { result.now ≡ given_line self.now }
    {
        &self.held[self.start..self.start + self.count]
    }

    /// What the reader holds.
    fn rest(&self) -> &[u8]
        ensures { result.now ≡ held_of self.now }
    {
        &self.held[self.at..]
    }

    /// Gives that many bytes of what it holds as a line, and skips the byte after them.
    fn give(&mut self, count: usize)
        requires { count < length (held_of self.old) }
        ensures line { given_line self.new ≡ take count (held_of self.old) }
        ensures rest { held_of self.new ≡ drop (count + 1) (held_of self.old) }
    {
        self.start = self.at;
        self.count = count;
        self.at += count + 1;
    }

    /// Drops what the reader holds.
    fn pass(&mut self)
        ensures { held_of self.new ≡ [] }
    {
        self.at = self.held.len();
    }

    /// Moves what the reader holds to the front of its room.
    fn move_front(&mut self)
        ensures same { held_of self.new ≡ held_of self.old }
        ensures front { vec_len self.new.held ≡ length (held_of self.old) }
    {
        let count = self.held.len() - self.at;
        self.held.as_mut_slice().rotate_left(self.at);
        self.held.truncate(count);
        self.at = 0;
        self.start = 0;
        self.count = 0;
    }

    /// Holds a piece after what it holds.
    fn hold(&mut self, piece: &[u8])
        requires { vec_len self.old.held + length piece.now ≤ 8192 }
        ensures { held_of self.new ≡ held_of self.old ++ piece.now }
    {
        // There is room, so this takes no memory.
        let _ = self.held.extend_from_slice(piece);
    }

    /// Reads a piece after what the reader holds, and says how many bytes it has; 0 is the end of the input.
    fn fill<S: Source>(&mut self, source: &mut S) -> Result<usize, Failed>
        requires { length (held_of self.old) ≤ 4096 }
        ensures same { OnOk result (unread self.new (S.left source.new) ≡ unread self.old (S.left source.old)) }
        ensures more { IfOk result (λ count. length (held_of self.new) ≡ length (held_of self.old) + count) }
        ensures few { IfOk result (λ count. count ≤ 4096) }
        ensures ended { IfOk result (λ count. count ≡ 0 → S.left source.new ≡ told_as [] (S.left source.old)) }
        ensures held { IfOk result (λ count. count ≡ 0 → held_of self.new ≡ held_of self.old) }
        ensures fault { OnErr result (Rises (S.faults source.old) (S.faults source.new)) }
        ensures exact { OnOk result (Stays S.counts_exactly (S.faults source.old) (S.faults source.new)) }
        ensures kept { S.faults source.old ≤ S.faults source.new }
    {
        self.move_front();
        let mut buf = [0u8; PIECE];
        let count = match source.read(&mut buf) {
            Ok(count) => count,
            Err(Failed) => return Err(Failed),
        };
        self.hold(&buf[..count]);
        Ok(count)
    }

    /// The line that is whole in what the reader holds, if one does.
    fn held_line(&mut self) -> Option<Next>
        ensures some { IfSome result (λ next. GivesHeld next (held_of self.old) (held_of self.new) (given_line self.new)) }
        ensures line { result ≡ Some Next.End → ⊥ }
        ensures none { result ≡ None → Lacks 10 (held_of self.old) }
        ensures kept { result ≡ None → self.new ≡ self.old }
    {
        match place_of(b'\n', self.rest()) {
            Some(count) => {
                self.give(count);
                if count > LONGEST {
                    Some(Next::Long)
                } else {
                    Some(Next::Line)
                }
            }
            None => None,
        }
    }

    /// Skips a line, more than 4,096 bytes of which are held.
    fn pass_over<S: Source>(&mut self, source: &mut S) -> Result<Next, LineStop>
        requires unended { Lacks 10 (held_of self.old) }
        requires long { 4096 < length (held_of self.old) }
        ensures next { IfOk result (λ next. Gives next (unread self.old (S.left source.old)) (unread self.new (S.left source.new)) (given_line self.new)) }
        ensures ended { result ≡ Ok Next.End → S.left source.new ≡ told_as [] (S.left source.old) }
        ensures endless { result ≡ Err LineStop.Endless → IfSome (S.left source.old) (λ bytes. 18446744073709551615 ≤ length bytes) }
        ensures fault { result ≡ Err LineStop.Fault → Rises (S.faults source.old) (S.faults source.new) }
        ensures exact { OnOk result (Stays S.counts_exactly (S.faults source.old) (S.faults source.new)) }
        ensures kept { S.faults source.old ≤ S.faults source.new }
    {
        self.pass();
        'pieces: for _ in 0..u64::MAX {
            match self.fill(source) {
                Ok(0) => return Ok(Next::End),
                Ok(_) => {}
                Err(Failed) => return Err(LineStop::Fault),
            }
            match place_of(b'\n', self.rest()) {
                Some(count) => {
                    self.give(count);
                    return Ok(Next::Long);
                }
                None => self.pass(),
            }
        }
        Err(LineStop::Endless)
    }

    /// Reads on until the line is whole, where no newline is held.
    fn read_line<S: Source>(&mut self, source: &mut S) -> Result<Next, LineStop>
        requires { Lacks 10 (held_of self.old) }
        ensures next { IfOk result (λ next. Gives next (unread self.old (S.left source.old)) (unread self.new (S.left source.new)) (given_line self.new)) }
        ensures ended { result ≡ Ok Next.End → S.left source.new ≡ told_as [] (S.left source.old) }
        ensures endless { result ≡ Err LineStop.Endless → IfSome (S.left source.old) (λ bytes. 18446744073709551615 ≤ length bytes) }
        ensures fault { result ≡ Err LineStop.Fault → Rises (S.faults source.old) (S.faults source.new) }
        ensures exact { OnOk result (Stays S.counts_exactly (S.faults source.old) (S.faults source.new)) }
        ensures kept { S.faults source.old ≤ S.faults source.new }
    {
        loop {
            if self.rest().len() > LONGEST {
                return self.pass_over(source);
            }
            match self.fill(source) {
                Ok(0) => return Ok(Next::End),
                Ok(_) => {}
                Err(Failed) => return Err(LineStop::Fault),
            }
            match self.held_line() {
                Some(next) => return Ok(next),
                None => {}
            }
        }
    }

    /// The next line. The source is read only where the reader holds no newline, and no further than up to the first piece that has one.
    pub fn next<S: Source>(&mut self, source: &mut S) -> Result<Next, LineStop>
        ensures next { IfOk result (λ next. Gives next (unread self.old (S.left source.old)) (unread self.new (S.left source.new)) (given_line self.new)) }
        ensures ended { result ≡ Ok Next.End → S.left source.new ≡ told_as [] (S.left source.old) }
        ensures waits { (source.new ≡ source.old) ⊎ Lacks 10 (held_of self.old) }
        ensures endless { result ≡ Err LineStop.Endless → IfSome (S.left source.old) (λ bytes. 18446744073709551615 ≤ length bytes) }
        ensures fault { result ≡ Err LineStop.Fault → Rises (S.faults source.old) (S.faults source.new) }
        ensures exact { OnOk result (Stays S.counts_exactly (S.faults source.old) (S.faults source.new)) }
        ensures kept { S.faults source.old ≤ S.faults source.new }
    {
        match self.held_line() {
            Some(next) => Ok(next),
            None => self.read_line(source),
        }
    }

    /// Moves what the reader holds of a line after what was read of it, and says whether that ends it.
    fn take_line(&mut self, line: &mut Vec<u8>) -> Result<bool, NoMemory>
        ensures ended { result ≡ Ok true → (piece : List ℕ) × (line.new.items ≡ line.old.items ++ piece) × IsCut 10 (held_of self.old) piece (held_of self.new) }
        ensures unended { result ≡ Ok false → (line.new.items ≡ line.old.items ++ held_of self.old) × Lacks 10 (held_of self.old) × (held_of self.new ≡ []) }
    {
        match place_of(b'\n', self.rest()) {
            Some(count) => {
                if line.extend_from_slice(&self.rest()[..count]).is_err() {
                    return Err(NoMemory);
                }
                self.give(count);
                Ok(true)
            }
            None => {
                if line.extend_from_slice(self.rest()).is_err() {
                    return Err(NoMemory);
                }
                self.pass();
                Ok(false)
            }
        }
    }

    /// The first line, which a newline or the end of the input ends, of at most N bytes. Of a longer one no more is
    /// read than the limit and a piece.
    pub fn first<S: Source>(
        &mut self,
        alloc: Global,
        source: &mut S,
        limit: usize,
    ) -> Result<Vec<u8>, FirstStop>
        requires limit { limit < 4294967296 }
        requires unread { held_of self.old ≡ [] }
        ensures line { IfOk result (λ line. IfSome (S.left source.old) (λ bytes. line.items ≡ first_line bytes)) }
        ensures behind { OnOk result (unread self.new (S.left source.new) ≡ behind_told (S.left source.old)) }
        ensures short { IfOk result (λ line. length line.items ≤ limit) }
        ensures long { result ≡ Err FirstStop.TooLong → IfSome (S.left source.old) (λ bytes. limit < length (first_line bytes)) }
        ensures stopped { result ≡ Err FirstStop.TooLong → IfSome (S.left source.old) (λ bytes. IfSome (S.left source.new) (λ left. length bytes ≤ length left + (limit + 4096))) }
        ensures fault { result ≡ Err FirstStop.Fault → Rises (S.faults source.old) (S.faults source.new) }
        ensures exact { OnOk result (Stays S.counts_exactly (S.faults source.old) (S.faults source.new)) }
        ensures kept { S.faults source.old ≤ S.faults source.new }
    {
        let mut line = Vec::new(alloc);
        loop {
            let ended = match self.take_line(&mut line) {
                Ok(ended) => ended,
                Err(NoMemory) => return Err(FirstStop::NoMemory),
            };
            if line.len() > limit {
                return Err(FirstStop::TooLong);
            }
            if ended {
                return Ok(line);
            }
            let count = match self.fill(source) {
                Ok(count) => count,
                Err(Failed) => return Err(FirstStop::Fault),
            };
            if count == 0 {
                return Ok(line);
            }
        }
    }
}
