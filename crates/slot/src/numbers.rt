// A choice of slots and a status as numbers, for hosts and lists of cases; a status from its number too.
ghost use Rattle.std.specs.Prelude.{◌≡◌};
ghost use Rattle.slot.specs.Numbers.{choice_number, status_values, status_of, StatusNumbers};

use crate::slot::{SlotIndex, SlotInfo, SlotStatus};

// 0 none, 1 A, 2 B. By a `match`: none is no slot, which no cast numbers.
pub fn choice_number(choice: Option<SlotIndex>) -> u8
    ensures { result ≡ choice_number choice }
{
    match choice {
        None => 0,
        Some(index) => index.number(),
    }
}

impl SlotStatus {
    // A row for each case that has values, by the places that C and the lists have them in.
    // The values that go with the status, zeros after them: the format that is not supported, the flags that are not known, or the facts
    // about a valid slot.
    pub fn values(&self) -> [u64; 9]
        ensures { result ≡ status_values self.now }
    {
        match self {
            Self::UnsupportedVersion { major } => [u64::from(*major), 0, 0, 0, 0, 0, 0, 0, 0],
            Self::Incompatible { flags } => [u64::from(*flags), 0, 0, 0, 0, 0, 0, 0, 0],
            Self::Valid(info) => [
                info.generation,
                info.owner_generation,
                u64::from(info.header_crc32c),
                u64::from(info.prev_header_crc32c),
                u64::from(info.ro_compat_flags),
                u64::from(info.compat_flags),
                info.meta_seq,
                u64::from(info.payload_start),
                u64::from(info.payload_len),
            ],
            _ => [0; 9],
        }
    }

    // A row a case: nothing but a `match` makes a case of a number.
    // The status with this number, with these facts if it is valid. Format and flags that do not go with the number are 0.
    pub fn from_code(code: u32, info: SlotInfo) -> Option<Self>
        ensures { result ≡ status_of code info }
    {
        match code {
            0 => Some(Self::ReadError),
            1 => Some(Self::BadLength),
            2 => Some(Self::Blank),
            3 => Some(Self::BadMagic),
            4 => Some(Self::BadHeaderCrc),
            5 => Some(Self::UnsupportedVersion { major: 0 }),
            6 => Some(Self::Incompatible { flags: 0 }),
            7 => Some(Self::Malformed),
            8 => Some(Self::Foreign),
            9 => Some(Self::WrongObject),
            10 => Some(Self::Misplaced),
            11 => Some(Self::BadPayloadCrc),
            12 => Some(Self::Valid(info)),
            _ => None,
        }
    }
}

// Does nothing: its contract is that a number is of the status that it gives, and that above 12 none is.
pub fn status_numbers()
    ensures { StatusNumbers }
{}
