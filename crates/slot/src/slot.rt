// The A/B slot: a 128-byte header followed by a payload, in a block of 512 bytes to 64 KiB. An object is a pair of slots, written in
// turn, so that a torn write can damage only the slot being written.
//
// Header, little-endian, 128 bytes:
//
// | Offset | Size | Field | Rule |
// |---|---|---|---|
// | 0 | 8 | magic | `SIOSLOT` and a zero byte |
// | 8 | 4 | header_crc32c | CRC-32C over the header, this field read as 0 |
// | 12 | 2 | header_len | 128 as written; 128 to the slot's size (exactly 128 in format 2) |
// | 14 | 2 | format_major | 1 or 2, as the reader expects |
// | 16 | 4 | incompat_flags | any bit: refuse to read |
// | 20 | 4 | ro_compat_flags | any bit: readable, never rewritten |
// | 24 | 4 | compat_flags | ignored |
// | 28 | 4 | payload_crc32c | CRC-32C over the payload |
// | 32 | 16 | volume_uuid | the expected volume |
// | 48 | 8 | object_id | the expected object |
// | 56 | 8 | generation | at least 1 |
// | 64 | 8 | slot_offset | where this slot lies |
// | 72 | 4 | payload_len | what fits after the header |
// | 76 | 1 | slot_index | 0 A, 1 B |
// | 77 | 1 | slot_count | 2 |
// | 78 | 1 | log2_slot_size | 9 to 16 |
// | 79 | 1 | reserved | 0 |
// | 80 | 4 | prev_header_crc32c | header CRC of the previous generation |
// | 84 | 4 | reserved | 0 |
// | 88 | 8 | owner_generation | owner generation of the writer |
// | 96 | 8 | meta_seq | format 2: at least 1 for a numbered object, else 0 |
// | 104 | 24 | reserved | 0 |
//
// The payload starts at header_len; the rest of the slot is zero as written and never looked at.
ghost use Rattle.std.specs.Prelude.{◌≡◌, ◌==◌, length};
ghost use Rattle.codec.specs.Place.{Part};
ghost use Rattle.slot.specs.Status.{index_number, slot_number, other, code, is_valid, info, error_number};
ghost use Rattle.slot.specs.Payload.{payload_start, payload_length};

// Magic bytes at offset 0 of every slot.
pub const MAGIC: [u8; 8] = *b"SIOSLOT\0";
// Header length written by every format.
pub const HEADER_LEN: usize = 128;
// On-disk format 1.
pub const FORMAT_1: u16 = 1;
// On-disk format 2: the paged region table, and `meta_seq` in the header.
pub const FORMAT_2: u16 = 2;
// Where the header's own CRC starts and ends in it.
pub(crate) const CRC_START: usize = 8;

pub(crate) const CRC_END: usize = 12;
// Number of slots in a pair.
pub const SLOT_COUNT: u8 = 2;
// Smallest slot size, as a power of two: 512 bytes.
pub const MIN_LOG2_SLOT_SIZE: u8 = 9;
// Largest slot size, as a power of two: 64 KiB.
pub const MAX_LOG2_SLOT_SIZE: u8 = 16;

// Which slot of a pair.
#[derive(Clone, Copy, PartialEq, Eq)]
pub enum SlotIndex {
    A,
    B,
}

impl SlotIndex {
    // The on-disk index value.
    pub fn as_u8(self) -> u8
        ensures { result ≡ index_number self }
    {
        self as u8
    }

    // Its number where 0 stands for no slot: 1 A, 2 B.
    pub fn number(self) -> u8
        ensures { result ≡ slot_number self }
    {
        self.as_u8() + 1
    }

    // The other slot of the pair.
    pub fn other(self) -> Self
        ensures { result ≡ other self }
    {
        match self {
            Self::A => Self::B,
            Self::B => Self::A,
        }
    }
}

// Everything written into a slot header except the CRCs and constants.
#[derive(Clone, Copy)]
pub struct SlotFields {
    // Volume identity; a slot from another volume is rejected as foreign.
    pub volume_uuid: [u8; 16],
    // Identity of the object this pair stores.
    pub object_id: u64,
    // Generation of this version; at least 1, one more than the previous.
    pub generation: u64,
    // Owner generation of the process writing the slot.
    pub owner_generation: u64,
    // Absolute byte offset the slot is written to.
    pub slot_offset: u64,
    // Which slot of the pair this is.
    pub slot_index: SlotIndex,
    // Slot size as a power of two.
    pub log2_slot_size: u8,
    // Header CRC of the version this one replaces (0 for generation 1).
    pub prev_header_crc32c: u32,
    // `FORMAT_1` or `FORMAT_2`.
    pub format_major: u16,
    // Format 2: the store-wide number of this write (0 for an object that is not numbered). Format 1: must be 0.
    pub meta_seq: u64,
    // May-ignore flags: 0 for a first write; a rewrite carries the winner's bits, known or not.
    pub compat_flags: u32,
}

// Why a slot could not be encoded. These are mistakes of the caller, never of the medium.
#[derive(Clone, Copy)]
pub enum EncodeError {
    // `log2_slot_size` is outside 9..=16.
    SlotSize = 1,
    // The output buffer length is not exactly the slot size.
    BufferLength = 2,
    // The payload does not fit after the header.
    PayloadTooLarge = 3,
    // Generation 0 is never written.
    ZeroGeneration = 4,
    // `format_major` is not 1 or 2, or format 1 was given a `meta_seq`.
    Format = 5,
}

impl EncodeError {
    // The number of the refusal.
    pub fn number(self) -> u8
        ensures { result ≡ error_number self }
    {
        self as u8
    }
}

// What the reader expects of a slot at a given location.
#[derive(Clone, Copy)]
pub struct Expect {
    // The volume being opened.
    pub volume_uuid: [u8; 16],
    // The object stored in this pair.
    pub object_id: u64,
    // Absolute byte offset the slot was read from.
    pub slot_offset: u64,
    // Which slot of the pair was read.
    pub slot_index: SlotIndex,
    // Configured slot size as a power of two.
    pub log2_slot_size: u8,
    // The format the container was found to be; a slot of any other format is `SlotStatus::UnsupportedVersion`.
    pub format_major: u16,
    // Format 2: whether this object carries `meta_seq` (the volume record and the table pages: at least 1) or not (0).
    pub numbered: bool,
}

// Facts about a slot that passed every check.
#[derive(Clone, Copy)]
pub struct SlotInfo {
    // Generation of the stored version.
    pub generation: u64,
    // Owner generation of the process that wrote it.
    pub owner_generation: u64,
    // This slot's header CRC.
    pub header_crc32c: u32,
    // Header CRC of the version it replaced.
    pub prev_header_crc32c: u32,
    // Read-only compatibility flags; any bit forbids rewriting.
    pub ro_compat_flags: u32,
    // Compatible feature flags.
    pub compat_flags: u32,
    // Format 2: the metadata sequence number (0 in format 1).
    pub meta_seq: u64,
    // Where the payload starts, and how many bytes it has: two numbers and no slice, since C gets them.
    pub payload_start: u16,
    pub payload_len: u32,
}

impl SlotInfo {
    // The payload's place in the slot's own bytes. A buffer too short for it gives an empty part.
    pub fn payload<'a>(&self, slot: &'a [u8]) -> &'a [u8]
        ensures { Part slot.entry (payload_start self.now (length slot.now)) (payload_length self.now (length slot.now)) result }
    {
        let start = usize::from(self.payload_start);
        let end = start + self.payload_len as usize;
        if slot.len() < end {
            return &slot[..0];
        }
        &slot[start..end]
    }

    // Whether this version may write a newer generation over it: no read-only flag is known.
    pub fn writable(&self) -> bool
        ensures { result ≡ (self.now.ro_compat_flags == 0) }
    {
        self.ro_compat_flags == 0
    }
}

// Result of validating one slot.
#[derive(Clone, Copy)]
pub enum SlotStatus {
    // The device reported an error reading the slot (set by the host).
    ReadError,
    // The buffer is not the configured slot size.
    BadLength,
    // The header is all zero: never written.
    Blank,
    // The magic bytes are wrong: not a slot, or overwritten.
    BadMagic,
    // The header CRC does not match: torn or corrupted header.
    BadHeaderCrc,
    // Written by a different on-disk format version; never read or overwritten.
    UnsupportedVersion { major: u16 },
    // Uses incompatible features this version does not understand.
    Incompatible { flags: u32 },
    // The CRC is valid but a field holds an impossible value.
    Malformed,
    // The slot belongs to another volume.
    Foreign,
    // The slot belongs to another object of this volume.
    WrongObject,
    // The slot records a different location or slot index: a misdirected write.
    Misplaced,
    // The payload CRC does not match: torn or corrupted payload.
    BadPayloadCrc,
    // Every check passed.
    Valid(SlotInfo),
}

impl SlotStatus {
    // The number of the status. Cases with values are numbered by a `match`: a cast numbers none.
    pub fn code(&self) -> u8
        ensures { result ≡ code self.now }
    {
        match self {
            Self::ReadError => 0,
            Self::BadLength => 1,
            Self::Blank => 2,
            Self::BadMagic => 3,
            Self::BadHeaderCrc => 4,
            Self::UnsupportedVersion { .. } => 5,
            Self::Incompatible { .. } => 6,
            Self::Malformed => 7,
            Self::Foreign => 8,
            Self::WrongObject => 9,
            Self::Misplaced => 10,
            Self::BadPayloadCrc => 11,
            Self::Valid(_) => 12,
        }
    }

    // What is known of a valid slot.
    pub fn info(&self) -> Option<SlotInfo>
        ensures { result ≡ info self.now }
    {
        match self {
            Self::Valid(info) => Some(*info),
            _ => None,
        }
    }

    // Whether every check passed.
    pub fn is_valid(&self) -> bool
        ensures { result ≡ is_valid self.now }
    {
        matches!(self, Self::Valid(_))
    }
}

// What a slot's header shows, whether or not the slot is valid.
#[derive(Clone, Copy)]
pub struct HeaderFacts {
    // The header's CRC as stored (it may not verify): compared with the winner's `prev_header_crc32c` to recognise a damaged predecessor.
    pub stored_header_crc32c: u32,
    // Present when the header passes every check before the payload's CRC: the slot is `Valid` or `BadPayloadCrc`.
    pub numbered: Option<NumberedHeader>,
}

// The header fields of a numbered slot.
#[derive(Clone, Copy)]
pub struct NumberedHeader {
    // Generation of the version the slot holds or was meant to hold.
    pub generation: u64,
    // Its metadata sequence number (format 2; 0 in format 1).
    pub meta_seq: u64,
    // The header CRC of the version it replaced.
    pub prev_header_crc32c: u32,
}
