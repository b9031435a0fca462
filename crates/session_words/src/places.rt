//! The first place of a byte.

ghost use Rattle.std.specs.Prelude.{◌≡◌, None, IfSome};
ghost use Rattle.session_words.specs.Lines.{Lacks, StandsFirst};

use memchr::memchr;

/// The first place of a byte.
pub fn place_of(byte: u8, bytes: &[u8]) -> Option<usize>
    ensures some { IfSome result (λ place. StandsFirst byte bytes.now place) }
    ensures none { result ≡ None → Lacks byte bytes.now }
{
    memchr(byte, bytes)
}
