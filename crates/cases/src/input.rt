// The input of a case, field after field: little-endian numbers, then bytes. None of these functions is one that the lists check.
ghost use Rattle.std.specs.Prelude.{◌≡◌, ◌≤◌, min, MatchOption};
ghost use Rattle.std.specs.Int.{w8, w16, w32, w64};
ghost use Rattle.cases.specs.Input.{first};

// Written out by width: one generic over a trait of numbers would have its type named at each call, no plainer than `first_u32(input)`.

/// The first byte, and what is after it.
pub fn first_u8(input: &[u8]) -> Option<(u8, &[u8])>
    ensures { MatchOption result (first w8 input.now ≡ None) (λ f. first w8 input.now ≡ Some (f.0, f.1.now)) }
{
    let (bytes, rest) = input.split_first_chunk()?;
    Some((u8::from_le_bytes(*bytes), rest))
}

/// The number of two bytes,
pub fn first_u16(input: &[u8]) -> Option<(u16, &[u8])>
    ensures { MatchOption result (first w16 input.now ≡ None) (λ f. first w16 input.now ≡ Some (f.0, f.1.now)) }
{
    let (bytes, rest) = input.split_first_chunk()?;
    Some((u16::from_le_bytes(*bytes), rest))
}

/// of four,
pub fn first_u32(input: &[u8]) -> Option<(u32, &[u8])>
    ensures { MatchOption result (first w32 input.now ≡ None) (λ f. first w32 input.now ≡ Some (f.0, f.1.now)) }
{
    let (bytes, rest) = input.split_first_chunk()?;
    Some((u32::from_le_bytes(*bytes), rest))
}

/// and of eight.
pub fn first_u64(input: &[u8]) -> Option<(u64, &[u8])>
    ensures { MatchOption result (first w64 input.now ≡ None) (λ f. first w64 input.now ≡ Some (f.0, f.1.now)) }
{
    let (bytes, rest) = input.split_first_chunk()?;
    Some((u64::from_le_bytes(*bytes), rest))
}

/// A size, of eight bytes,
pub fn first_size(input: &[u8]) -> Option<(usize, &[u8])>
    ensures { MatchOption result (first w64 input.now ≡ None) (λ f. first w64 input.now ≡ Some (f.0, f.1.now)) }
{
    let (size, rest) = first_u64(input)?;
    Some((size as usize, rest))
}

/// and the length of a buffer, of two.
pub fn first_length(input: &[u8]) -> Option<(usize, &[u8])>
    ensures { MatchOption result (first w16 input.now ≡ None) (λ f. first w16 input.now ≡ Some (f.0, f.1.now)) }
{
    let (length, rest) = first_u16(input)?;
    Some((length as usize, rest))
}

/// A status or a refusal in a byte, 255 for one that fits in none.
pub fn narrow(number: u32) -> u8
    ensures { result ≡ min number 255 }
{
    number.min(255) as u8
}
