// A line and its fields, which single spaces part; the two last are bytes in lower-case hexadecimal.
ghost use Rattle.std.specs.Prelude.{◌≡◌, IfOk, MatchOption};
ghost use Rattle.std.specs.Option.{option_map};
ghost use Rattle.cases.specs.Line.{fields, field_bytes, items_of};

use hex::FromHexError;
use std::alloc::{AllocError, Global};
use verdict_text::read::{cut, is_lower_hex};

/// The name, the input and what is expected, of a line that has no newline.
pub fn split(line: &[u8]) -> Option<(&[u8], &[u8], &[u8])>
    ensures { MatchOption result (fields line.now ≡ None) (λ f. fields line.now ≡ Some (f.0.now, f.1.now, f.2.now)) }
{
    let (name, rest) = cut(line, b' ')?;
    let (input, expected) = cut(rest, b' ')?;
    Some((name, input, expected))
}

/// The bytes of a field: `-` stands for none, and no field is empty.
pub fn field_bytes(alloc: Global, field: &[u8]) -> Result<Option<Vec<u8>>, AllocError>
    ensures { IfOk result (λ bytes. items_of bytes ≡ field_bytes field.now) }
{
    match field {
        [] => Ok(None),
        [b'-'] => Ok(Some(Vec::new(alloc))),
        [_] => Ok(None),
        digits if !is_lower_hex(digits) => Ok(None),
        digits => match hex::decode(alloc, digits) {
            Ok(bytes) => Ok(Some(bytes)),
            Err(FromHexError::OutOfMemory) => Err(AllocError),
            Err(_) => Ok(None),
        },
    }
}
