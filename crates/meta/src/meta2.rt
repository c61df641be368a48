//! Container format 2: the 64-byte volume record, and the table pages with their 96-byte entries.
//!
//! Decoders check the layout and every field the format defines on its own; rules that need the container (the file's length, the table
//! area, the page's number) are checked against [`EntryLimits`], which the caller fills from what it knows. Payload lengths are exact: a
//! longer payload is a newer layout, not extra bytes to ignore.
//!
//! | Offset | Size | Field of the volume record | Rule |
//! |---|---|---|---|
//! | 0 | 48 | base | as in `meta`; table_offset is two blocks |
//! | 48 | 4 | table_pages | 1 to 2^30 - 1 |
//! | 52 | 2 | entries_per_page | what a table slot holds |
//! | 54 | 1 | clean_close | 0 or 1 |
//! | 55 | 1 | | zero |
//! | 56 | 4 | flags | none defined |
//! | 60 | 4 | | zero |
//!
//! | Offset | Size | Field of a page | Rule |
//! |---|---|---|---|
//! | 0 | 4 | page_index | the page's own |
//! | 4 | 4 | next_seq | above every entry's seq |
//! | 8 | 2 | count | at most the maximum and next_seq |
//! | 10 | 14 | | zero |
//! | 24 | 96 each | entries | seqs distinct; zeros at 38 |
//!
//! | Offset | Size | Field of an entry | Rule |
//! |---|---|---|---|
//! | 0 | 4 | seq | |
//! | 4 | 1 | kind | 1 append, 2 page, 3 slot |
//! | 5 | 1 | state | 1 |
//! | 6 | 1 | flags | at most 3 |
//! | 7 | 1 | compat_flags | |
//! | 8 | 24 | name | 1 to 24 printable bytes of UTF-8, then zeros |
//! | 32 | 4 | tag | |
//! | 36 | 2 | extent_count | 0 for a slot region, else at least 1 |
//! | 38 | 2 | reserved | zero (checked with the page) |
//! | 40 | 8 | header_a | whole blocks, in the span, after the table |
//! | 48 | 8 | header_b | the same, another one |
//! | 56 | 8 | data_size | at most the capacity |
//! | 64 | 8 | capacity | at most the span; whole blocks |
//! | 72 | 8 | span_start | whole blocks, below span_end |
//! | 80 | 8 | span_end | whole blocks, in the file |
//! | 88 | 8 | footprint_seq | 1 to the page's number |
ghost use Rattle.std.specs.Prelude.{◌≡◌, ◌≤◌, ◌*◌, length};
ghost use Rattle.std.specs.List.{flat_map};
ghost use Rattle.codec.specs.Cursor.{write_row};
ghost use Rattle.meta.specs.Base.{BaseLayout};
ghost use Rattle.meta.specs.Block.{block_size, entries_per_page};
ghost use Rattle.meta.specs.Name.{name_in};
ghost use Rattle.meta.specs.Volume.{tail_at, check_tail, decode_volume, volume_row, encode_volume, table_end, check_file_len, TailLayout, VolumesBack};
ghost use Rattle.meta.specs.Entry.{read_entry, entry_row, write_entry, name_and_kind, whole_up, reserved_span, to_raw, EntryLayout};
ghost use Rattle.meta.specs.Check.{check_span, check_header, check_footprint, check_content, check_sizes, check_entry, EntriesBack};
ghost use Rattle.meta.specs.Table.{Table};
ghost use Rattle.meta.specs.Rules.{NameRows, Utf8Rows, SizeRows, BaseRows, VolumeRows, TableRows, PageRows, PageEntryRows, PageWriteRows, EntryRows, CheckRows, OrderRows, SpanRows};
ghost use Rattle.meta.specs.Page.{header_at, decode_page, Gives, parts, entries, seq, shares, check_own, check_entries, header_row, stored_part, encode_page, encode_entries, HeaderLayout, PagesBack, NamesIgnored};

use crate::meta::{
    Field, MAX_LOG2_BLOCK, MIN_LOG2_BLOCK, MetaError, NAME_MAX, RegionKind, RegionName,
    RegionState, VolumeMeta,
};
use codec::codec::{Reader, Writer, all_zero};

/// Encoded length of [`VolumeMeta2`].
pub const VOLUME_META2_LEN: usize = 64;
/// Length of the header of the slot that a page lies in.
const SLOT_HEADER_LEN: usize = 128;
/// Length of a table page's header.
pub const PAGE_HEADER_LEN: usize = 24;
/// Length of one table entry.
pub const ENTRY2_LEN: usize = 96;
/// Pages a container may have.
pub const MAX_TABLE_PAGES: u32 = 1 << 30;
/// Entry flag: provisioned unwritten.
pub const FLAG_UNWRITTEN: u8 = 1 << 0;
/// Entry flag: growth limited to the capacity.
pub const FLAG_CAPPED: u8 = 1 << 1;
/// Must-understand entry flags this version knows.
pub const KNOWN_FLAGS: u8 = FLAG_UNWRITTEN | FLAG_CAPPED;

/// The size of a block or a table slot. A `log2` outside 12 to 16 counts as the nearer end.
#[tactic(auto, unfolding(crate::specs::Block::block_size))]
pub fn block_size(log2: u8) -> u64
    ensures { result ≡ block_size log2 }
{
    1 << log2.clamp(MIN_LOG2_BLOCK, MAX_LOG2_BLOCK)
}

/// Entries per table page for a table slot of that size: what fits after the slot's header and the page's.
#[tactic(auto, unfolding(crate::specs::Block::entries_per_page), using(crate::proofs::BlockLaws::block_range))]
pub fn entries_per_page(log2_table: u8) -> u16
    ensures { result ≡ entries_per_page log2_table }
{
    let room = block_size(log2_table) as usize - SLOT_HEADER_LEN - PAGE_HEADER_LEN;
    (room / ENTRY2_LEN) as u16
}

/// The format-2 volume record.
#[derive(Clone, Copy)]
pub struct VolumeMeta2 {
    /// Format 1's fields (`table_offset` is two blocks; `features` 0).
    pub base: VolumeMeta,
    /// Table pages.
    pub table_pages: u32,
    /// Entries per page (must equal [`entries_per_page`]).
    pub entries_per_page: u16,
    /// The last writer closed cleanly.
    pub clean_close: bool,
    /// Must-understand volume flags (none defined).
    pub flags: u32,
}

/// What is stored after the base.
#[derive(Clone, Copy)]
struct Tail {
    table_pages: u32,
    entries_per_page: u16,
    clean_close: u8,
    reserved0: u8,
    flags: u32,
    reserved1: u32,
}

impl Tail {
    /// The fields after the base, in the order of the layout.
    #[tactic(auto, unfolding(crate::specs::Volume::tail_at))]
    fn read(bytes: &[u8]) -> Option<Self>
        ensures { result ≡ tail_at bytes.now }
    {
        let r = Reader { pos: 48 };
        let Some((table_pages, r)) = r.u32(bytes) else {
            return None;
        };
        let Some((entries_per_page, r)) = r.u16(bytes) else {
            return None;
        };
        let Some((clean_close, r)) = r.u8(bytes) else {
            return None;
        };
        let Some((reserved0, r)) = r.u8(bytes) else {
            return None;
        };
        let Some((flags, r)) = r.u32(bytes) else {
            return None;
        };
        let Some((reserved1, _)) = r.u32(bytes) else {
            return None;
        };
        Some(Self {
            table_pages,
            entries_per_page,
            clean_close,
            reserved0,
            flags,
            reserved1,
        })
    }

    /// The rules of these fields beside a base that passed its own.
    #[tactic(auto, unfolding(crate::specs::Volume::check_tail), using(crate::proofs::BlockLaws::block_range))]
    #[inline(always)]
    fn check(&self, base: &VolumeMeta) -> Result<(), MetaError>
        ensures { result ≡ check_tail base.now self.now }
    {
        if self.reserved0 != 0 || self.reserved1 != 0 {
            return Err(MetaError::Field(Field::Reserved));
        }
        if base.table_offset != 2 * block_size(base.log2_block_size) {
            return Err(MetaError::Field(Field::TableOffset));
        }
        if self.table_pages == 0 || self.table_pages >= MAX_TABLE_PAGES {
            return Err(MetaError::Field(Field::TablePages));
        }
        if self.entries_per_page != entries_per_page(base.log2_table_slot_size) {
            return Err(MetaError::Field(Field::EntriesPerPage));
        }
        if self.clean_close > 1 {
            return Err(MetaError::Field(Field::CleanClose));
        }
        Ok(())
    }
}

impl VolumeMeta2 {
    /// Encodes the record into the first 64 bytes of `out`. A refusal keeps `out`.
    #[tactic(auto, unfolding(crate::specs::Volume::encode_volume), using(crate::proofs::VolumeLaws::volume_fits))]
    pub fn encode(&self, out: &mut [u8]) -> Result<usize, MetaError>
        ensures { (out.new, result) ≡ encode_volume self.now out.old }
    {
        if out.len() < VOLUME_META2_LEN {
            return Err(MetaError::Length);
        }
        let Some(_) = self.write(out) else {
            return Err(MetaError::Length);
        };
        Ok(VOLUME_META2_LEN)
    }

    /// Decodes and validates a record of exactly 64 bytes.
    #[tactic(auto, unfolding(crate::specs::Volume::decode_volume, crate::specs::Volume::check_volume))]
    pub fn decode(bytes: &[u8]) -> Result<Self, MetaError>
        ensures { result ≡ decode_volume bytes.now }
    {
        if bytes.len() != VOLUME_META2_LEN {
            return Err(MetaError::Length);
        }
        let Some(read) = VolumeMeta::read(bytes) else {
            return Err(MetaError::Length);
        };
        let Some(tail) = Tail::read(bytes) else {
            return Err(MetaError::Length);
        };
        let (base, reserved_word, reserved_tail) = read;
        // Newer-format markers first, before any other field, so that a newer record is recognised as newer and never as damage.
        if base.features != 0 {
            return Err(MetaError::Field(Field::Features));
        }
        if tail.flags != 0 {
            return Err(MetaError::Field(Field::Flags));
        }
        base.check(reserved_word, reserved_tail)?;
        tail.check(&base)?;
        Ok(Self {
            base,
            table_pages: tail.table_pages,
            entries_per_page: tail.entries_per_page,
            clean_close: tail.clean_close == 1,
            flags: tail.flags,
        })
    }

    /// Checks that the table area lies within a container of `file_len` bytes.
    pub fn check_file_len(&self, file_len: u64) -> Result<(), MetaError>
        ensures { result ≡ check_file_len self.now file_len }
    {
        if self.table_end()? > file_len {
            return Err(MetaError::Field(Field::TablePages));
        }
        Ok(())
    }

    /// The end of the table area: two blocks and two table slots a page.
    #[tactic(auto, using(crate::proofs::BlockLaws::block_range, crate::proofs::BlockLaws::table_fits))]
    pub fn table_end(&self) -> Result<u64, MetaError>
        ensures { result ≡ table_end self.now }
    {
        if self.base.log2_block_size < MIN_LOG2_BLOCK
            || self.base.log2_block_size > MAX_LOG2_BLOCK
        {
            return Err(MetaError::Field(Field::Log2BlockSize));
        }
        if self.base.log2_table_slot_size < self.base.log2_block_size
            || self.base.log2_table_slot_size > MAX_LOG2_BLOCK
        {
            return Err(MetaError::Field(Field::Log2TableSlotSize));
        }
        let block = block_size(self.base.log2_block_size);
        let slot = block_size(self.base.log2_table_slot_size);
        Ok(2 * block + 2 * (self.table_pages as u64) * slot)
    }

    /// Writes every field in the order of the layout.
    #[tactic(auto, using(crate::proofs::VolumeLaws::row_join))]
    fn write(&self, out: &mut [u8]) -> Option<Writer>
        ensures { (out.new, result) ≡ write_row (volume_row self.now) out.old (record { pos = 0 }) }
    {
        let w = self.base.write(out)?;
        let w = w.u32(out, self.table_pages)?;
        let w = w.u16(out, self.entries_per_page)?;
        let w = w.u8(out, self.clean_close as u8)?;
        let w = w.u8(out, 0)?;
        let w = w.u32(out, self.flags)?;
        w.u32(out, 0)
    }
}

/// A table page's header.
#[derive(Clone, Copy)]
pub struct PageHeader {
    /// The page's index (must match the object id).
    pub page_index: u32,
    /// The next sequence number the page gives out; never decreases.
    pub next_seq: u32,
    /// Entries that follow.
    pub count: u16,
}

/// One table entry as stored: every field, before the per-entry checks (an entry that fails them makes its region unavailable, and its
/// span is still needed, so the raw fields are always available).
#[derive(Clone, Copy)]
pub struct RawEntry {
    /// Sequence number in the page; region id `p << 32 | seq`.
    pub seq: u32,
    /// Kind code.
    pub kind: u8,
    /// State code.
    pub state: u8,
    /// Must-understand flags.
    pub flags: u8,
    /// May-ignore flags.
    pub compat_flags: u8,
    /// The zero-padded name bytes.
    pub name: [u8; NAME_MAX],
    /// Space-accounting tag.
    pub tag: u32,
    /// Committed extents.
    pub extent_count: u16,
    /// The two reserved bytes at 38 (checked at page level: zero).
    pub reserved: u16,
    /// Header slot A's offset.
    pub header_a: u64,
    /// Header slot B's offset.
    pub header_b: u64,
    /// Usable length.
    pub data_size: u64,
    /// Reserved length (the extents' sum).
    pub capacity: u64,
    /// Lowest offset of the footprint.
    pub span_start: u64,
    /// One past the highest.
    pub span_end: u64,
    /// `meta_seq` of the page write that last changed the footprint.
    pub footprint_seq: u64,
}

/// A table entry that passed the per-entry checks.
#[derive(Clone, Copy)]
pub struct Entry2 {
    /// Sequence number in the page.
    pub seq: u32,
    /// Region kind.
    pub kind: RegionKind,
    /// Must-understand flags (only known ones).
    pub flags: u8,
    /// May-ignore flags, kept verbatim.
    pub compat_flags: u8,
    /// Region name.
    pub name: RegionName,
    /// Space-accounting tag.
    pub tag: u32,
    /// Committed extents.
    pub extent_count: u16,
    /// Header slot A's offset.
    pub header_a: u64,
    /// Header slot B's offset.
    pub header_b: u64,
    /// Usable length.
    pub data_size: u64,
    /// Reserved length.
    pub capacity: u64,
    /// Lowest offset of the footprint.
    pub span_start: u64,
    /// One past the highest.
    pub span_end: u64,
    /// `meta_seq` of the page write that last changed the footprint.
    pub footprint_seq: u64,
}

/// What the per-entry checks need from the container.
#[derive(Clone, Copy)]
pub struct EntryLimits {
    /// The block size's log2.
    pub log2_block: u8,
    /// The end of the table area: nothing of a region before it.
    pub table_end: u64,
    /// The container file's length.
    pub file_len: u64,
    /// The `meta_seq` of the page copy holding the entry.
    pub page_meta_seq: u64,
}

impl Entry2 {
    /// The entry as stored (for writing it back).
    pub fn to_raw(&self) -> RawEntry
        ensures { result ≡ to_raw self.now }
    {
        RawEntry {
            seq: self.seq,
            kind: self.kind.to_u8(),
            state: RegionState::Ready.to_u8(),
            flags: self.flags,
            compat_flags: self.compat_flags,
            name: self.name.bytes,
            tag: self.tag,
            extent_count: self.extent_count,
            reserved: 0,
            header_a: self.header_a,
            header_b: self.header_b,
            data_size: self.data_size,
            capacity: self.capacity,
            span_start: self.span_start,
            span_end: self.span_end,
            footprint_seq: self.footprint_seq,
        }
    }
}

impl RawEntry {
    /// The entry in the first 96 bytes.
    #[tactic(auto, unfolding(crate::specs::Entry::entry_at))]
    #[inline(always)]
    pub fn read(bytes: &[u8]) -> Result<Self, MetaError>
        ensures { result ≡ read_entry bytes.now }
    {
        let r = Reader { pos: 0 };
        let Some((seq, r)) = r.u32(bytes) else {
            return Err(MetaError::Length);
        };
        let Some((kind, r)) = r.u8(bytes) else {
            return Err(MetaError::Length);
        };
        let Some((state, r)) = r.u8(bytes) else {
            return Err(MetaError::Length);
        };
        let Some((flags, r)) = r.u8(bytes) else {
            return Err(MetaError::Length);
        };
        let Some((compat_flags, r)) = r.u8(bytes) else {
            return Err(MetaError::Length);
        };
        let Some(name) = r.array(bytes) else {
            return Err(MetaError::Length);
        };
        let (name, r) = name;
        let Some((tag, r)) = r.u32(bytes) else {
            return Err(MetaError::Length);
        };
        let Some((extent_count, r)) = r.u16(bytes) else {
            return Err(MetaError::Length);
        };
        let Some((reserved, r)) = r.u16(bytes) else {
            return Err(MetaError::Length);
        };
        let Some((header_a, r)) = r.u64(bytes) else {
            return Err(MetaError::Length);
        };
        let Some((header_b, r)) = r.u64(bytes) else {
            return Err(MetaError::Length);
        };
        let Some((data_size, r)) = r.u64(bytes) else {
            return Err(MetaError::Length);
        };
        let Some((capacity, r)) = r.u64(bytes) else {
            return Err(MetaError::Length);
        };
        let Some((span_start, r)) = r.u64(bytes) else {
            return Err(MetaError::Length);
        };
        let Some((span_end, r)) = r.u64(bytes) else {
            return Err(MetaError::Length);
        };
        let Some((footprint_seq, _)) = r.u64(bytes) else {
            return Err(MetaError::Length);
        };
        Ok(Self {
            seq,
            kind,
            state,
            flags,
            compat_flags,
            name,
            tag,
            extent_count,
            reserved,
            header_a,
            header_b,
            data_size,
            capacity,
            span_start,
            span_end,
            footprint_seq,
        })
    }

    /// Writes the entry to the first 96 bytes of `out`, zeros at 38. A refusal keeps `out`.
    #[tactic(auto, unfolding(crate::specs::Entry::write_entry), using(crate::proofs::EntryLaws::entry_fits))]
    pub fn write(&self, out: &mut [u8]) -> Result<usize, MetaError>
        ensures { (out.new, result) ≡ write_entry self.now out.old }
    {
        if out.len() < ENTRY2_LEN {
            return Err(MetaError::Length);
        }
        let Some(_) = self.write_fields(out) else {
            return Err(MetaError::Length);
        };
        Ok(ENTRY2_LEN)
    }

    /// Writes every field in the order of the layout, zeros at 38.
    fn write_fields(&self, out: &mut [u8]) -> Option<Writer>
        ensures { (out.new, result) ≡ write_row (entry_row self.now) out.old (record { pos = 0 }) }
    {
        let w = Writer { pos: 0 };
        let w = w.u32(out, self.seq)?;
        let w = w.u8(out, self.kind)?;
        let w = w.u8(out, self.state)?;
        let w = w.u8(out, self.flags)?;
        let w = w.u8(out, self.compat_flags)?;
        let w = w.bytes(out, &self.name)?;
        let w = w.u32(out, self.tag)?;
        let w = w.u16(out, self.extent_count)?;
        let w = w.u16(out, 0)?;
        let w = w.u64(out, self.header_a)?;
        let w = w.u64(out, self.header_b)?;
        let w = w.u64(out, self.data_size)?;
        let w = w.u64(out, self.capacity)?;
        let w = w.u64(out, self.span_start)?;
        let w = w.u64(out, self.span_end)?;
        w.u64(out, self.footprint_seq)
    }

    /// The per-entry checks. An entry that fails them makes its region unavailable; the page itself stands. Flags first, so that an entry
    /// from a newer release is recognised as such.
    #[tactic(auto, unfolding(crate::specs::Check::check_entry))]
    pub fn check(&self, lim: &EntryLimits) -> Result<Entry2, MetaError>
        ensures { result ≡ check_entry self.now lim.now }
    {
        if self.flags > KNOWN_FLAGS {
            return Err(MetaError::Field(Field::Flags));
        }
        if lim.log2_block < MIN_LOG2_BLOCK || lim.log2_block > MAX_LOG2_BLOCK {
            return Err(MetaError::Field(Field::Log2Block));
        }
        let Ok(kind) = RegionKind::from_u8(self.kind) else {
            return Err(MetaError::Field(Field::Kind));
        };
        let Ok(RegionState::Ready) = RegionState::from_u8(self.state) else {
            return Err(MetaError::Field(Field::State));
        };
        let Ok(name) = RegionName::from_padded(self.name) else {
            return Err(MetaError::Field(Field::Name));
        };
        self.check_span(lim)?;
        self.check_header(self.header_a, lim)?;
        self.check_header(self.header_b, lim)?;
        self.check_footprint(lim)?;
        self.check_content(kind)?;
        let Ok(_) = self.check_sizes(kind, lim) else {
            return Err(MetaError::Unaligned);
        };
        Ok(Entry2 {
            seq: self.seq,
            kind,
            flags: self.flags,
            compat_flags: self.compat_flags,
            name,
            tag: self.tag,
            extent_count: self.extent_count,
            header_a: self.header_a,
            header_b: self.header_b,
            data_size: self.data_size,
            capacity: self.capacity,
            span_start: self.span_start,
            span_end: self.span_end,
            footprint_seq: self.footprint_seq,
        })
    }

    /// The extents lie in the span (checked with the header), so that their sum, the capacity, cannot exceed it.
    #[tactic(auto, unfolding(crate::specs::Check::check_span), using(crate::proofs::BlockLaws::block_range))]
    fn check_span(&self, lim: &EntryLimits) -> Result<(), MetaError>
        ensures { result ≡ check_span self.now lim.now }
    {
        if self.data_size > self.capacity {
            return Err(MetaError::Field(Field::DataSize));
        }
        if self.span_start >= self.span_end || self.span_end > lim.file_len {
            return Err(MetaError::Field(Field::Span));
        }
        if self.capacity > self.span_end - self.span_start {
            return Err(MetaError::Field(Field::Capacity));
        }
        let block = block_size(lim.log2_block);
        if self.span_start % block != 0 || self.span_end % block != 0 {
            return Err(MetaError::Unaligned);
        }
        Ok(())
    }

    /// A header's block lies in the span and after the table.
    #[tactic(auto, unfolding(crate::specs::Check::check_header), using(crate::proofs::BlockLaws::block_range))]
    fn check_header(&self, header: u64, lim: &EntryLimits) -> Result<(), MetaError>
        ensures { result ≡ check_header self.now header lim.now }
    {
        let block = block_size(lim.log2_block);
        if header % block != 0 {
            return Err(MetaError::Unaligned);
        }
        if header < lim.table_end
            || header < self.span_start
            || self.span_end < header
            || self.span_end - header < block
        {
            return Err(MetaError::Field(Field::Header));
        }
        Ok(())
    }

    /// Two headers in two places, and a footprint number that some page write has had.
    #[tactic(auto, unfolding(crate::specs::Check::check_footprint))]
    fn check_footprint(&self, lim: &EntryLimits) -> Result<(), MetaError>
        ensures { result ≡ check_footprint self.now lim.now }
    {
        if self.header_a == self.header_b {
            return Err(MetaError::Field(Field::Header));
        }
        if self.footprint_seq == 0 || self.footprint_seq > lim.page_meta_seq {
            return Err(MetaError::Field(Field::FootprintSeq));
        }
        Ok(())
    }

    /// A slot region has no data area, every other an extent and a capacity.
    #[tactic(auto, unfolding(crate::specs::Check::check_content))]
    fn check_content(&self, kind: RegionKind) -> Result<(), MetaError>
        ensures { result ≡ check_content self.now kind }
    {
        match kind {
            RegionKind::Slot
                if self.extent_count != 0 || self.capacity != 0 || self.data_size != 0 => {
                Err(MetaError::Field(Field::Slot))
            }
            RegionKind::Slot => Ok(()),
            _ if self.extent_count == 0 => Err(MetaError::Field(Field::ExtentCount)),
            _ if self.capacity == 0 => Err(MetaError::Field(Field::Capacity)),
            _ => Ok(()),
        }
    }

    /// Whole data blocks; of 512 bytes in an append region.
    #[tactic(auto, using(crate::proofs::BlockLaws::block_range))]
    fn check_sizes(&self, kind: RegionKind, lim: &EntryLimits) -> Result<(), MetaError>
        ensures { result ≡ check_sizes self.now kind lim.now }
    {
        let block = block_size(lim.log2_block);
        let unit = match kind {
            RegionKind::Append => 512,
            _ => block,
        };
        if self.capacity % block != 0 || self.data_size % unit != 0 {
            return Err(MetaError::Unaligned);
        }
        Ok(())
    }

    /// The entry's name, when it decodes (whatever else fails): a name an unavailable entry keeps reserved.
    pub fn name(&self) -> Option<RegionName>
        ensures { result ≡ name_in self.now.name }
    {
        RegionName::from_padded(self.name).ok()
    }

    /// The entry's name and kind, when both decode (so an entry that fails the per-entry checks can still be named in a report).
    pub fn name_and_kind(&self) -> Option<(RegionName, RegionKind)>
        ensures { result ≡ name_and_kind self.now }
    {
        let Some(name) = self.name() else {
            return None;
        };
        let Ok(kind) = RegionKind::from_u8(self.kind) else {
            return None;
        };
        Some((name, kind))
    }

    /// The bytes an unavailable entry keeps reserved: its span widened to whole blocks, then clamped to the file and to past the table
    /// area (`None` when nothing is left).
    #[tactic(auto, unfolding(crate::specs::Entry::reserved_span), using(crate::proofs::BlockLaws::block_range))]
    pub fn reserved_span(&self, lim: &EntryLimits) -> Option<(u64, u64)>
        ensures { result ≡ reserved_span self.now lim.now }
    {
        let block = block_size(lim.log2_block);
        let start = (self.span_start - self.span_start % block).max(lim.table_end);
        let end = whole_up(self.span_end, block).min(lim.file_len);
        (start < end).then_some((start, end))
    }
}

/// The next multiple of `block`, or the highest number where there is none.
fn whole_up(n: u64, block: u64) -> u64
    requires { 1 ≤ block }
    ensures { result ≡ whole_up n block }
{
    n.checked_next_multiple_of(block).unwrap_or(u64::MAX)
}

/// A decoded page: its header, and its entries as a part of the bytes that it was decoded from.
#[derive(Clone, Copy)]
pub struct Page<'a> {
    /// The page header.
    pub header: PageHeader,
    /// The entries' bytes.
    pub entries: &'a [u8],
}

impl<'a> Page<'a> {
    /// The entries' bytes as they are stored: the very part that the page has, and no copy.
    pub fn stored(&self) -> &'a [u8]
        ensures { result ≡ self.now.entries }
    {
        self.entries
    }

    /// The entries in stored order, 96 bytes each.
    pub fn entries(&self) -> &'a [[u8; ENTRY2_LEN]]
        ensures { result.now ≡ parts self.now.entries.now }
    {
        let (entries, _) = self.stored().as_chunks::<ENTRY2_LEN>();
        entries
    }
}

impl PageHeader {
    /// The header and the fourteen bytes after it, in the order of the layout.
    #[tactic(auto, unfolding(crate::specs::Page::header_at))]
    fn read(bytes: &[u8]) -> Option<(Self, [u8; 14])>
        ensures { result ≡ header_at bytes.now }
    {
        let r = Reader { pos: 0 };
        let Some((page_index, r)) = r.u32(bytes) else {
            return None;
        };
        let Some((next_seq, r)) = r.u32(bytes) else {
            return None;
        };
        let Some((count, r)) = r.u16(bytes) else {
            return None;
        };
        let Some(reserved) = r.array(bytes) else {
            return None;
        };
        let (reserved, _) = reserved;
        Some((
            Self {
                page_index,
                next_seq,
                count,
            },
            reserved,
        ))
    }

    /// Writes every field in the order of the layout.
    fn write(&self, out: &mut [u8]) -> Option<Writer>
        ensures { (out.new, result) ≡ write_row (header_row self.now) out.old (record { pos = 0 }) }
    {
        let w = Writer { pos: 0 };
        let w = w.u32(out, self.page_index)?;
        let w = w.u32(out, self.next_seq)?;
        let w = w.u16(out, self.count)?;
        w.zeros(out, 14)
    }
}

/// Decodes a page payload and applies the page checks: a page that fails them is lost.
#[tactic(auto, unfolding(crate::specs::Page::decode_page))]
pub fn decode_page(bytes: &[u8], page_index: u32, max_entries: u16) -> Result<Page<'_>, MetaError>
    ensures { Gives bytes.entry result (decode_page bytes.now page_index max_entries) }
{
    let Some(read) = PageHeader::read(bytes) else {
        return Err(MetaError::Length);
    };
    let (header, reserved) = read;
    if !all_zero(&reserved) {
        return Err(MetaError::Field(Field::Reserved));
    }
    if header.page_index != page_index {
        return Err(MetaError::Field(Field::PageIndex));
    }
    if header.count > max_entries || header.count as u32 > header.next_seq {
        return Err(MetaError::Field(Field::Count));
    }
    if bytes.len() != PAGE_HEADER_LEN + header.count as usize * ENTRY2_LEN {
        return Err(MetaError::Length);
    }
    if let Err(error) = check_entries(entries(bytes), header.next_seq) {
        return Err(error);
    }
    Ok(Page {
        header,
        entries: &bytes[PAGE_HEADER_LEN..],
    })
}

/// The entries after the header.
#[tactic(auto, unfolding(crate::specs::Page::entries))]
fn entries(bytes: &[u8]) -> &[[u8; ENTRY2_LEN]]
    requires { 24 ≤ length bytes.now }
    ensures { result.now ≡ entries bytes.now }
{
    let (entries, _) = bytes[PAGE_HEADER_LEN..].as_chunks::<ENTRY2_LEN>();
    entries
}

/// The page's checks of its entries: each one's own, and that no later entry has its number.
fn check_entries(entries: &[[u8; ENTRY2_LEN]], next_seq: u32) -> Result<(), MetaError>
    ensures { result ≡ check_entries next_seq entries.now }
{
    let mut rest = entries;
    while let [e, others @ ..] = rest {
        check_own(e, next_seq)?;
        if shares(others, seq(e)) {
            return Err(MetaError::Duplicate);
        }
        rest = others;
    }
    Ok(())
}

/// An entry's sequence number was given out, and the bytes at 38 are zero.
fn check_own(e: &[u8; ENTRY2_LEN], next_seq: u32) -> Result<(), MetaError>
    ensures { result ≡ check_own next_seq e.now }
{
    if seq(e) >= next_seq {
        return Err(MetaError::Field(Field::Seq));
    }
    if e[38] != 0 || e[39] != 0 {
        return Err(MetaError::Field(Field::Reserved));
    }
    Ok(())
}

/// Whether one of the entries has this sequence number. They are scanned by eights: a scan of a constant length compiles to a row of
/// comparisons.
#[tactic(auto, using(crate::proofs::PageLaws::any_eights))]
fn shares(entries: &[[u8; ENTRY2_LEN]], number: u32) -> bool
    ensures { result ≡ shares number entries.now }
{
    let (eights, rest) = entries.as_chunks::<8>();
    eights.iter().any(|eight| one_of(eight, number)) || one_of(rest, number)
}

/// The same, an entry a step.
fn one_of(entries: &[[u8; ENTRY2_LEN]], number: u32) -> bool
    ensures { result ≡ shares number entries.now }
{
    entries.iter().any(|e| seq(e) == number)
}

/// An entry's sequence number.
#[tactic(auto, using(crate::proofs::PageLaws::front_number))]
fn seq(e: &[u8; ENTRY2_LEN]) -> u32
    ensures { result ≡ seq e.now }
{
    u32::from_le_bytes([e[0], e[1], e[2], e[3]])
}

/// Encodes a page of entries as they are stored, but for zeros at 38, and returns the payload's length. A refusal keeps `out`.
#[tactic(auto, unfolding(crate::specs::Page::encode_page, crate::specs::Page::page_bytes), using(crate::proofs::PageLaws::header_fits))]
pub fn encode_page(
    out: &mut [u8],
    h: &PageHeader,
    entries: &[[u8; ENTRY2_LEN]],
) -> Result<usize, MetaError>
    ensures { (out.new, result) ≡ encode_page h.now entries.now out.old }
{
    if entries.len() > u16::MAX as usize {
        return Err(MetaError::Length);
    }
    if entries.len() != h.count as usize {
        return Err(MetaError::Field(Field::Count));
    }
    let len = PAGE_HEADER_LEN + entries.len() * ENTRY2_LEN;
    if out.len() < len {
        return Err(MetaError::Length);
    }
    let Some(_) = h.write(out) else {
        return Err(MetaError::Length);
    };
    write_entries(&mut out[PAGE_HEADER_LEN..len], entries);
    Ok(len)
}

/// Encodes a page of the entries in these bytes, 96 each, as [`encode_page`] does. A rest below 96 bytes is refused before all else.
pub fn encode_entries(out: &mut [u8], h: &PageHeader, entries: &[u8]) -> Result<usize, MetaError>
    ensures { (out.new, result) ≡ encode_entries h.now entries.now out.old }
{
    let (entries, rest) = entries.as_chunks::<ENTRY2_LEN>();
    if !rest.is_empty() {
        return Err(MetaError::Length);
    }
    encode_page(out, h, entries)
}

// By index: of what a slice ends as, `chunks_mut` and `as_chunks_mut` say nothing, and over them the proof did not close.
/// Writes each entry to its own place.
fn write_entries(out: &mut [u8], entries: &[[u8; ENTRY2_LEN]])
    requires { length out.old ≡ length entries.now * 96 }
    ensures { out.new ≡ flat_map stored_part entries.now }
{
    for i in 0..entries.len() {
        let start = i * ENTRY2_LEN;
        write_entry(&mut out[start..start + ENTRY2_LEN], &entries[i]);
    }
}

/// Writes one entry, all 96 bytes as one run, then zeros at 38.
fn write_entry(place: &mut [u8], entry: &[u8; ENTRY2_LEN])
    requires { length place.old ≡ 96 }
    ensures { place.new ≡ stored_part entry.now }
{
    place.copy_from_slice(entry);
    place[38..40].fill(0);
}

/// Does nothing: its contract is the layouts of the volume record, of entries and of a page's header, by offsets.
#[tactic(auto, using(crate::proofs::LayoutLaws::base_layout, crate::proofs::LayoutLaws::tail_layout, crate::proofs::LayoutLaws::entry_layout, crate::proofs::LayoutLaws::header_layout))]
pub fn layout_law()
    ensures base { BaseLayout }
    ensures tail { TailLayout }
    ensures entry { EntryLayout }
    ensures header { HeaderLayout }
{}

/// Does nothing: its contract is the round trip of volume records.
#[tactic(auto, using(crate::proofs::VolumeLaws::volumes_back))]
pub fn volumes_back()
    ensures { VolumesBack }
{}

/// Does nothing: its contract is the round trip of entries.
#[tactic(auto, using(crate::proofs::EntryLaws::entries_back))]
pub fn entries_back()
    ensures { EntriesBack }
{}

/// Does nothing: its contract is the round trip of pages.
#[tactic(auto, using(crate::proofs::PageLaws::pages_back))]
pub fn pages_back()
    ensures { PagesBack }
{}

/// Does nothing: its contract is that a page is read whatever the names of its entries.
#[tactic(auto, using(crate::proofs::PageLaws::names_ignored))]
pub fn ignored_law()
    ensures { NamesIgnored }
{}

/// Does nothing: its contract is the table of all places and numbers.
#[tactic(auto, using(crate::proofs::TableLaws::table))]
pub fn table_law()
    ensures { Table }
{}

/// Does nothing: its contract is the rules by rows, both sides of each bound and the order of the refusals.
#[tactic(auto, using(crate::proofs::RulesLaws::all_rows))]
pub fn rules_table()
    ensures name { NameRows }
    ensures utf8 { Utf8Rows }
    ensures size { SizeRows }
    ensures base { BaseRows }
    ensures volume { VolumeRows }
    ensures table { TableRows }
    ensures page { PageRows }
    ensures page_entry { PageEntryRows }
    ensures page_write { PageWriteRows }
    ensures entry { EntryRows }
    ensures check { CheckRows }
    ensures order { OrderRows }
    ensures span { SpanRows }
{}
