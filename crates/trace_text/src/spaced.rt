//! The pieces of a line of words: a word or a number after one space, octets in hexadecimal, each put at the end of one
//! buffer. If memory runs out, the buffer keeps what it had, with at most the space after it.
ghost use Rattle.std.specs.Prelude.{◌≡◌, ◌⊎◌, ◌++◌, ◌∷◌, [], OnOk, OnErr};
ghost use Rattle.hex.specs.Hex.{encode_lower};

use itoa::{Buffer, Integer};
use std::alloc::{AllocError, Global};

/// A space, and the word.
pub fn word(out: &mut Vec<u8>, text: &[u8]) -> Result<(), AllocError>
    ensures ok { OnOk result (out.new.items ≡ out.old.items ++ 32 ∷ text.now) }
    ensures err { OnErr result ((out.new.items ≡ out.old.items) ⊎ (out.new.items ≡ out.old.items ++ 32 ∷ [])) }
{
    out.push(b' ')?;
    out.extend_from_slice(text)
}

/// A space, and the number without leading zeros.
pub fn number<I: Integer>(out: &mut Vec<u8>, n: I) -> Result<(), AllocError>
    ensures ok { OnOk result (out.new.items ≡ out.old.items ++ 32 ∷ I.text n) }
    ensures err { OnErr result ((out.new.items ≡ out.old.items) ⊎ (out.new.items ≡ out.old.items ++ 32 ∷ [])) }
{
    out.push(b' ')?;
    digits(out, n)
}

/// The number, without leading zeros.
pub fn digits<I: Integer>(out: &mut Vec<u8>, n: I) -> Result<(), AllocError>
    ensures ok { OnOk result (out.new.items ≡ out.old.items ++ I.text n) }
    ensures err { OnErr result (out.new.items ≡ out.old.items) }
{
    let mut buffer = Buffer::new();
    out.extend_from_slice(buffer.format(n).as_bytes())
}

/// The octets in lower-case hexadecimal.
pub fn hexadecimal(alloc: Global, out: &mut Vec<u8>, octets: &[u8]) -> Result<(), AllocError>
    ensures ok { OnOk result (out.new.items ≡ out.old.items ++ encode_lower octets.now) }
    ensures err { OnErr result (out.new.items ≡ out.old.items) }
{
    let text = hex::encode(alloc, octets)?;
    out.extend_from_slice(text.as_bytes())
}
