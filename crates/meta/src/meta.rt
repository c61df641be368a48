//! What the metadata records share: why a payload is refused, region kinds and states, region names, and the 48 bytes of the volume
//! record that both formats have.
//!
//! | Offset | Size | Field of the volume record | Rule |
//! |---|---|---|---|
//! | 0 | 1 | log2_block_size | 12 to 16 |
//! | 1 | 1 | log2_table_slot_size | log2_block_size to 16 |
//! | 2 | 2 | device_index | |
//! | 4 | 4 | | zero |
//! | 8 | 8 | owner_generation | |
//! | 16 | 8 | table_offset | whole blocks |
//! | 24 | 8 | created_unix_s | |
//! | 32 | 8 | features | none defined |
//! | 40 | 8 | | zero |
ghost use Rattle.std.specs.Prelude.{◌≡◌, ◌≤◌, ◌==◌, length};
ghost use Rattle.std.specs.List.{list_all};
ghost use Rattle.codec.specs.Cursor.{write_row};
ghost use Rattle.meta.specs.Error.{number, field_number, Numbered};
ghost use Rattle.meta.specs.Kind.{kind_number, kind_at, state_number, state_at};
ghost use Rattle.meta.specs.Utf8.{utf8};
ghost use Rattle.meta.specs.Scalar.{GrammarEncodes};
ghost use Rattle.meta.specs.Name.{is_printable, is_name, zero_at, named, padded, text, name_text, PrintableAre, NamesAre, NamesBack};
ghost use Rattle.meta.specs.Base.{base_at, check_base, decode_base, base_row, encode_base, BasesBack};

use codec::codec::{Reader, Writer, all_zero, copy};
use std::error::Error;
use std::{fmt, str};

/// A field whose value is refused.
#[derive(Clone, Copy, PartialEq, Eq, Debug)]
pub enum Field {
    Features = 20,
    Flags = 21,
    Reserved = 22,
    Log2BlockSize = 23,
    Log2TableSlotSize = 24,
    TableOffset = 25,
    TablePages = 26,
    EntriesPerPage = 27,
    CleanClose = 28,
    PageIndex = 29,
    Count = 30,
    Seq = 31,
    Log2Block = 32,
    Kind = 33,
    State = 34,
    Name = 35,
    DataSize = 36,
    Span = 37,
    Capacity = 38,
    Header = 39,
    FootprintSeq = 40,
    Slot = 41,
    ExtentCount = 42,
}

/// Why a payload failed to decode or encode.
#[derive(Clone, Copy, PartialEq, Eq, Debug)]
pub enum MetaError {
    /// The payload is shorter than its fixed layout, or the output too small.
    Length,
    /// A field holds a value this format does not define.
    Field(Field),
    /// Two entries of a page share a sequence number.
    Duplicate,
    /// An offset or size is not a multiple of the volume's block size.
    Unaligned,
}

impl Field {
    /// The number of the field's refusal.
    pub fn number(self) -> u8
        ensures { result ≡ field_number self }
    {
        self as u8
    }
}

impl MetaError {
    /// The number of the refusal.
    pub fn number(self) -> u8
        ensures { result ≡ number self }
    {
        match self {
            // A row a case: a case that holds a field is no number by a cast.
            Self::Length => 11,
            Self::Duplicate => 12,
            Self::Unaligned => 13,
            Self::Field(field) => field.number(),
        }
    }
}

impl fmt::Display for Field {
    ghost use Rattle.std.specs.Prelude.{Some};
    ghost use Rattle.meta.specs.Error.{field_text};

    ghost output = { λ field. Some (field_text field) };

    fn fmt<W: fmt::Write>(&self, f: &mut fmt::Formatter<W>) -> fmt::Result {
        f.write_str(match self {
            Field::Features => "features are set that this format does not define",
            Field::Flags => "flags are set that this format does not define",
            Field::Reserved => "bytes that must be zero are not",
            Field::Log2BlockSize => "the block size is not 4 KiB to 64 KiB",
            Field::Log2TableSlotSize => "the table slot size is not from the block size to 64 KiB",
            Field::TableOffset => "the table does not begin behind two blocks",
            Field::TablePages => "the table has no page, too many, or ends behind the file",
            Field::EntriesPerPage => "the entries per page are not what a table slot holds",
            Field::CleanClose => "the clean mark is neither 0 nor 1",
            Field::PageIndex => "the page has another index",
            Field::Count => "the number of the page's entries is wrong",
            Field::Seq => "an entry's sequence number was not given out yet",
            Field::Log2Block => "the container's block size is not 4 KiB to 64 KiB",
            Field::Kind => "the region's kind is not defined",
            Field::State => "the region is not ready",
            Field::Name =>
                "the region's name is not 1 to 24 printable bytes of UTF-8, zeros behind them",
            Field::DataSize => "the region's data exceeds its capacity",
            Field::Span => "the region's span is empty or ends behind the file",
            Field::Capacity => "the region's capacity is zero or exceeds its span",
            Field::Header =>
                "the region's two headers are not in its span behind the table, in two places",
            Field::FootprintSeq => "the footprint's number is zero or above the page's",
            Field::Slot => "a slot region has extents or a data area",
            Field::ExtentCount => "the region has no extent",
        })
    }
}

impl fmt::Display for MetaError {
    ghost use Rattle.std.specs.Prelude.{Some};
    ghost use Rattle.meta.specs.Error.{error_text};

    ghost output = { λ error. Some (error_text error) };

    fn fmt<W: fmt::Write>(&self, f: &mut fmt::Formatter<W>) -> fmt::Result {
        match self {
            MetaError::Length => f.write_str("the payload's length does not match its layout"),
            MetaError::Field(field) => field.fmt(f),
            MetaError::Duplicate => f.write_str("two entries share a sequence number"),
            MetaError::Unaligned => f.write_str("an offset or a size is not block-aligned"),
        }
    }
}

impl Error for MetaError {}

/// What a region is for.
#[derive(Clone, Copy)]
pub enum RegionKind {
    /// Positions are allocated from a tail; blocks are never rewritten.
    Append = 1,
    /// Positions chosen by the caller; overwritten in place.
    Page = 2,
    /// A small object stored in the region's own header slot pair.
    Slot = 3,
}

impl RegionKind {
    /// The stored byte.
    pub fn to_u8(self) -> u8
        ensures { result ≡ kind_number self }
    {
        self as u8
    }

    // A row a case, here and of states: nothing but a `match` makes a case of a number. Kinds and states differ in their cases and
    // refusals, so one function for both would be told them all.

    /// The kind of a stored byte.
    pub fn from_u8(v: u8) -> Result<Self, MetaError>
        ensures { result ≡ kind_at v }
    {
        match v {
            1 => Ok(Self::Append),
            2 => Ok(Self::Page),
            3 => Ok(Self::Slot),
            _ => Err(MetaError::Field(Field::Kind)),
        }
    }
}

/// Lifecycle state of a region.
#[derive(Clone, Copy)]
pub enum RegionState {
    /// Provisioned and usable.
    Ready = 1,
    /// Released; its space may be reused after a new provisioning.
    Released = 2,
}

impl RegionState {
    /// The stored byte.
    pub fn to_u8(self) -> u8
        ensures { result ≡ state_number self }
    {
        self as u8
    }

    /// The state of a stored byte.
    pub fn from_u8(v: u8) -> Result<Self, MetaError>
        ensures { result ≡ state_at v }
    {
        match v {
            1 => Ok(Self::Ready),
            2 => Ok(Self::Released),
            _ => Err(MetaError::Field(Field::State)),
        }
    }
}

/// Most bytes of a region's name.
pub const NAME_MAX: usize = 24;

/// A region name: 1 to 24 printable bytes of UTF-8; zeros after them.
// 24 bytes and a length: there is no heap, and the bytes are stored so.
#[derive(Clone, Copy)]
pub struct RegionName {
    pub bytes: [u8; NAME_MAX],
    pub len: u8,
}

impl RegionName {
    /// Validates and stores a name.
    #[tactic(auto, unfolding(crate::specs::Name::name_of), using(crate::proofs::NameLaws::name_length))]
    pub fn new(name: &[u8]) -> Result<Self, MetaError>
        ensures { result ≡ named name.now }
    {
        if !is_name(name) {
            return Err(MetaError::Field(Field::Name));
        }
        let mut bytes = [0u8; NAME_MAX];
        copy(&mut bytes[..name.len()], name);
        Ok(Self {
            bytes,
            len: name.len() as u8,
        })
    }

    /// The name as text; none where the fields hold no UTF-8 of at most 24 bytes.
    pub fn as_str(&self) -> &str
        ensures { result.now ≡ name_text self.now }
    {
        if self.len as usize > NAME_MAX {
            return "";
        }
        text(&self.bytes[..self.len as usize])
    }

    /// A name as it is stored: its bytes, and zeros up to 24.
    #[tactic(auto, unfolding(crate::specs::Name::name_in))]
    pub fn from_padded(raw: [u8; NAME_MAX]) -> Result<Self, MetaError>
        ensures { result ≡ padded raw }
    {
        let len = zero_at(&raw);
        if !all_zero(&raw[len..]) {
            return Err(MetaError::Field(Field::Name));
        }
        Self::new(&raw[..len])
    }
}

/// Bytes as text; none where they are not UTF-8.
#[tactic(auto, using(crate::proofs::Utf8Laws::utf8_from_std, crate::proofs::Utf8Laws::not_utf8))]
fn text(bytes: &[u8]) -> &str
    ensures { result.now ≡ text bytes.now }
{
    match str::from_utf8(bytes) {
        Ok(s) => s,
        Err(_) => "",
    }
}

/// Whether bytes are UTF-8.
pub fn is_utf8(bytes: &[u8]) -> bool
    ensures { result ≡ utf8 bytes.now }
{
    str::from_utf8(bytes).is_ok()
}

/// Whether bytes are a name.
#[tactic(auto, unfolding(crate::specs::Name::is_name))]
fn is_name(name: &[u8]) -> bool
    ensures { result ≡ is_name name.now }
{
    !name.is_empty() && name.len() <= NAME_MAX && all_printable(name) && is_utf8(name)
}

/// Whether a byte is printable.
fn is_printable(b: u8) -> bool
    ensures { result ≡ is_printable b }
{
    b >= 0x20 && b != 0x7F
}

// Each byte is tested, also after one that is not printable: a scan without an early end compiles to comparisons of many bytes at once.
/// Whether every byte is printable.
fn all_printable(bytes: &[u8]) -> bool
    ensures { result ≡ list_all is_printable bytes.now }
{
    bytes.iter().fold(true, |all, &b| all & is_printable(b))
}

/// Where the first zero stands, or the length.
fn zero_at(bytes: &[u8]) -> usize
    ensures value { result ≡ zero_at bytes.now }
    ensures within { result ≤ length bytes.now }
{
    bytes.iter().position(|&b| b == 0).unwrap_or(bytes.len())
}

/// Smallest and largest block, and table slot, as a power of two: 4 KiB and 64 KiB.
pub(crate) const MIN_LOG2_BLOCK: u8 = 12;

pub(crate) const MAX_LOG2_BLOCK: u8 = 16;

/// Encoded length of [`VolumeMeta`].
pub const VOLUME_META_LEN: usize = 48;

/// The volume record: geometry and ownership of one container.
#[derive(Clone, Copy)]
pub struct VolumeMeta {
    /// Block (slot) size as a power of two; every slot and region is aligned to it.
    pub log2_block_size: u8,
    /// Region-table slot size as a power of two.
    pub log2_table_slot_size: u8,
    /// Index of this device in a multi-device store (0 for single-device).
    pub device_index: u16,
    /// Bumped and made durable on every writable open.
    pub owner_generation: u64,
    /// Byte offset of region-table slot A.
    pub table_offset: u64,
    /// Creation time, seconds since the Unix epoch (informative only).
    pub created_unix_s: u64,
    /// Feature flags (none defined).
    pub features: u64,
}

impl VolumeMeta {
    // As the record of 64 bytes and an entry: a length, the fields, the length. A function over the three would be told each of these, no
    // plainer.
    /// Encodes the record into the first 48 bytes of `out`. A refusal keeps `out`.
    #[tactic(auto, unfolding(crate::specs::Base::encode_base), using(crate::proofs::BaseLaws::base_fits))]
    pub fn encode(&self, out: &mut [u8]) -> Result<usize, MetaError>
        ensures { (out.new, result) ≡ encode_base self.now out.old }
    {
        if out.len() < VOLUME_META_LEN {
            return Err(MetaError::Length);
        }
        let Some(_) = self.write(out) else {
            return Err(MetaError::Length);
        };
        Ok(VOLUME_META_LEN)
    }

    /// Decodes and validates the first 48 bytes.
    #[tactic(auto, unfolding(crate::specs::Base::decode_base))]
    pub fn decode(bytes: &[u8]) -> Result<Self, MetaError>
        ensures { result ≡ decode_base bytes.now }
    {
        let Some(read) = Self::read(bytes) else {
            return Err(MetaError::Length);
        };
        let (base, reserved_word, reserved_tail) = read;
        base.check(reserved_word, reserved_tail)?;
        Ok(base)
    }

    // Read, checked and written field by field, here and in `meta2`: the layout and its rules stand in the row.

    /// The fields and the two reserved ones, in the order of the layout.
    #[tactic(auto, unfolding(crate::specs::Base::base_at))]
    pub(crate) fn read(bytes: &[u8]) -> Option<(Self, u32, u64)>
        ensures { result ≡ base_at bytes.now }
    {
        let r = Reader { pos: 0 };
        let Some((log2_block_size, r)) = r.u8(bytes) else {
            return None;
        };
        let Some((log2_table_slot_size, r)) = r.u8(bytes) else {
            return None;
        };
        let Some((device_index, r)) = r.u16(bytes) else {
            return None;
        };
        let Some((reserved_word, r)) = r.u32(bytes) else {
            return None;
        };
        let Some((owner_generation, r)) = r.u64(bytes) else {
            return None;
        };
        let Some((table_offset, r)) = r.u64(bytes) else {
            return None;
        };
        let Some((created_unix_s, r)) = r.u64(bytes) else {
            return None;
        };
        let Some((features, r)) = r.u64(bytes) else {
            return None;
        };
        let Some((reserved_tail, _)) = r.u64(bytes) else {
            return None;
        };
        Some((
            Self {
                log2_block_size,
                log2_table_slot_size,
                device_index,
                owner_generation,
                table_offset,
                created_unix_s,
                features,
            },
            reserved_word,
            reserved_tail,
        ))
    }

    /// Features first: a newer record that also reuses a reserved field or widens a range is still recognised as newer, not as damage.
    #[tactic(auto, unfolding(crate::specs::Base::check_base))]
    pub(crate) fn check(&self, reserved_word: u32, reserved_tail: u64) -> Result<(), MetaError>
        ensures { result ≡ check_base self.now reserved_word reserved_tail }
    {
        if self.features != 0 {
            return Err(MetaError::Field(Field::Features));
        }
        if reserved_word != 0 || reserved_tail != 0 {
            return Err(MetaError::Field(Field::Reserved));
        }
        if self.log2_block_size < MIN_LOG2_BLOCK || self.log2_block_size > MAX_LOG2_BLOCK {
            return Err(MetaError::Field(Field::Log2BlockSize));
        }
        if self.log2_table_slot_size < self.log2_block_size
            || self.log2_table_slot_size > MAX_LOG2_BLOCK
        {
            return Err(MetaError::Field(Field::Log2TableSlotSize));
        }
        if self.table_offset % (1 << self.log2_block_size) != 0 {
            return Err(MetaError::Unaligned);
        }
        Ok(())
    }

    /// Writes every field in the order of the layout.
    pub(crate) fn write(&self, out: &mut [u8]) -> Option<Writer>
        ensures { (out.new, result) ≡ write_row (base_row self.now) out.old (record { pos = 0 }) }
    {
        let w = Writer { pos: 0 };
        let w = w.u8(out, self.log2_block_size)?;
        let w = w.u8(out, self.log2_table_slot_size)?;
        let w = w.u16(out, self.device_index)?;
        let w = w.u32(out, 0)?;
        let w = w.u64(out, self.owner_generation)?;
        let w = w.u64(out, self.table_offset)?;
        let w = w.u64(out, self.created_unix_s)?;
        let w = w.u64(out, self.features)?;
        w.zeros(out, 8)
    }
}

/// Does nothing: its contract is that a refusal's number fixes the refusal.
#[tactic(auto, using(crate::proofs::ErrorLaws::numbered))]
pub fn case_law()
    ensures { Numbered }
{}

/// Does nothing: its contract is that UTF-8 is the encodings of runs of scalar values, and nothing else.
#[tactic(auto, using(crate::proofs::Utf8Laws::grammar_encodes))]
pub fn grammar_law()
    ensures { GrammarEncodes }
{}

/// Does nothing: its contract is which bytes are printable.
#[tactic(auto, using(crate::proofs::NameLaws::printable_are))]
pub fn printable_law()
    ensures { PrintableAre }
{}

/// Does nothing: its contract is that names are the encodings of printable scalar values in 1 to 24 bytes.
#[tactic(auto, using(crate::proofs::NameLaws::names_are))]
pub fn name_law()
    ensures { NamesAre }
{}

/// Does nothing: its contract is the round trip of names.
#[tactic(auto, using(crate::proofs::NameLaws::names_back))]
pub fn names_back()
    ensures { NamesBack }
{}

/// Does nothing: its contract is the round trip of the base.
#[tactic(auto, using(crate::proofs::BaseLaws::bases_back))]
pub fn bases_back()
    ensures { BasesBack }
{}
