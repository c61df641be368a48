// Table entries for C hosts.
//
// The C interface has one function an answer, and no records: each is written out, with the limits number by number.
ghost use Rattle.std.specs.Prelude.{◌≡◌};
ghost use Rattle.meta.specs.Entry.{read_entry, write_entry, entry_bytes};
ghost use Rattle.meta.specs.Error.{number};
ghost use Rattle.store_io.specs.Arguments.{raw_of, limits_of};
ghost use Rattle.store_io.specs.Host.{answer, encoded};
ghost use Rattle.store_io.specs.Metadata.{raw_values, raw_found, entry_values, entry_found, checked_at, restored, name_decoded, both_decoded, span_values, span_decoded};

use crate::answers::give;
use meta::meta::MetaError;
use meta::meta2::{Entry2, EntryLimits, RawEntry};

// An entry's fields.
#[unsafe(no_mangle)]
pub extern "C" fn sio_read_entry(entry: &[u8], found: &mut [u64; 15], name: &mut [u8; 24]) -> u32
    ensures { (result, (found.new, name.new)) ≡ answer number raw_found (found.old, name.old) (read_entry entry.now) }
{
    match RawEntry::read(entry) {
        Ok(raw) => {
            *found = raw_values(&raw);
            *name = raw.name;
            0
        }
        Err(error) => u32::from(error.number()),
    }
}

// The numbers of an entry as stored, in the layout's order but for the name.
// The C interface has a row of numbers for a record, one for each layout.
pub fn raw_values(e: &RawEntry) -> [u64; 15]
    ensures { result ≡ raw_values e.now }
{
    [
        u64::from(e.seq),
        u64::from(e.kind),
        u64::from(e.state),
        u64::from(e.flags),
        u64::from(e.compat_flags),
        u64::from(e.tag),
        u64::from(e.extent_count),
        u64::from(e.reserved),
        e.header_a,
        e.header_b,
        e.data_size,
        e.capacity,
        e.span_start,
        e.span_end,
        e.footprint_seq,
    ]
}

// Writes an entry's fields.
#[unsafe(no_mangle)]
pub extern "C" fn sio_write_entry(
    bytes: &mut [u8],
    seq: u32,
    kind: u8,
    state: u8,
    flags: u8,
    compat_flags: u8,
    name: &[u8; 24],
    tag: u32,
    extent_count: u16,
    header_a: u64,
    header_b: u64,
    data_size: u64,
    capacity: u64,
    span_start: u64,
    span_end: u64,
    footprint_seq: u64,
    written: &mut usize,
) -> u32
    ensures { (result, written.new, bytes.new) ≡ encoded number written.old (write_entry (raw_of seq kind state flags compat_flags name.now tag extent_count header_a header_b data_size capacity span_start span_end footprint_seq) bytes.old) }
{
    let raw = RawEntry {
        seq,
        kind,
        state,
        flags,
        compat_flags,
        name: *name,
        tag,
        extent_count,
        reserved: 0,
        header_a,
        header_b,
        data_size,
        capacity,
        span_start,
        span_end,
        footprint_seq,
    };
    give(raw.write(bytes), written)
}

// The answer of `check` for the entry in the first 96 bytes.
#[inline(always)]
pub fn check_at(entry: &[u8], limits: &EntryLimits) -> Result<Entry2, MetaError>
    ensures { result ≡ checked_at entry.now limits.now }
{
    RawEntry::read(entry)?.check(limits)
}

// Checks an entry by itself.
#[unsafe(no_mangle)]
pub extern "C" fn sio_check_entry(
    entry: &[u8],
    log2_block: u8,
    table_end: u64,
    file_len: u64,
    page_meta_seq: u64,
    found: &mut [u64; 13],
    name: &mut [u8; 24],
    name_len: &mut u8,
) -> u32
    ensures { (result, (found.new, name.new, name_len.new)) ≡ answer number entry_found (found.old, name.old, name_len.old) (checked_at entry.now (limits_of log2_block table_end file_len page_meta_seq)) }
{
    let limits = EntryLimits {
        log2_block,
        table_end,
        file_len,
        page_meta_seq,
    };
    match check_at(entry, &limits) {
        Ok(e) => {
            *found = entry_values(&e);
            *name = e.name.bytes;
            *name_len = e.name.len;
            0
        }
        Err(error) => u32::from(error.number()),
    }
}

// The numbers of an accepted entry, in the layout's order; state and reserved bytes are left out.
pub fn entry_values(e: &Entry2) -> [u64; 13]
    ensures { result ≡ entry_values e.now }
{
    [
        u64::from(e.seq),
        u64::from(e.kind.to_u8()),
        u64::from(e.flags),
        u64::from(e.compat_flags),
        u64::from(e.tag),
        u64::from(e.extent_count),
        e.header_a,
        e.header_b,
        e.data_size,
        e.capacity,
        e.span_start,
        e.span_end,
        e.footprint_seq,
    ]
}

// Checks an entry, and gives it as it is stored.
#[unsafe(no_mangle)]
pub extern "C" fn sio_entry_to_raw(
    entry: &[u8],
    log2_block: u8,
    table_end: u64,
    file_len: u64,
    page_meta_seq: u64,
    raw: &mut [u8; 96],
) -> u32
    ensures { (result, raw.new) ≡ answer number restored raw.old (checked_at entry.now (limits_of log2_block table_end file_len page_meta_seq)) }
{
    let limits = EntryLimits {
        log2_block,
        table_end,
        file_len,
        page_meta_seq,
    };
    match check_at(entry, &limits) {
        Ok(e) => {
            *raw = stored_bytes(&e.to_raw());
            0
        }
        Err(error) => u32::from(error.number()),
    }
}

// The 96 bytes of an entry.
#[tactic(auto, unfolding(meta::specs::Entry::write_entry))]
pub fn stored_bytes(e: &RawEntry) -> [u8; 96]
    ensures { result ≡ entry_bytes e.now }
{
    let mut bytes = [0u8; 96];
    let _ = e.write(&mut bytes);
    bytes
}

// The entry's name where it decodes.
#[unsafe(no_mangle)]
pub extern "C" fn sio_entry_name(entry: &[u8], name: &mut [u8; 24], name_len: &mut u8) -> u32
    ensures { (result, (name.new, name_len.new)) ≡ answer number name_decoded (name.old, name_len.old) (read_entry entry.now) }
{
    let raw = match RawEntry::read(entry) {
        Ok(raw) => raw,
        Err(error) => return u32::from(error.number()),
    };
    match raw.name() {
        Some(found) => {
            name.copy_from_slice(&found.bytes);
            *name_len = found.len;
        }
        None => {
            *name = [0; 24];
            *name_len = 0;
        }
    }
    0
}

// The entry's name and kind where both decode.
#[unsafe(no_mangle)]
pub extern "C" fn sio_entry_name_and_kind(
    entry: &[u8],
    kind: &mut u8,
    name: &mut [u8; 24],
    name_len: &mut u8,
) -> u32
    ensures { (result, (kind.new, name.new, name_len.new)) ≡ answer number both_decoded (kind.old, name.old, name_len.old) (read_entry entry.now) }
{
    let raw = match RawEntry::read(entry) {
        Ok(raw) => raw,
        Err(error) => return u32::from(error.number()),
    };
    match raw.name_and_kind() {
        Some((found, found_kind)) => {
            *kind = found_kind.to_u8();
            name.copy_from_slice(&found.bytes);
            *name_len = found.len;
        }
        None => {
            *kind = 0;
            *name = [0; 24];
            *name_len = 0;
        }
    }
    0
}

// The bytes that an entry keeps reserved.
#[unsafe(no_mangle)]
pub extern "C" fn sio_reserved_span(
    entry: &[u8],
    log2_block: u8,
    table_end: u64,
    file_len: u64,
    span: &mut [u64; 2],
) -> u32
    ensures { (result, span.new) ≡ answer number (span_decoded (limits_of log2_block table_end file_len 0)) span.old (read_entry entry.now) }
{
    let limits = EntryLimits {
        log2_block,
        table_end,
        file_len,
        page_meta_seq: 0,
    };
    match RawEntry::read(entry) {
        Ok(raw) => {
            *span = span_values(raw.reserved_span(&limits));
            0
        }
        Err(error) => u32::from(error.number()),
    }
}

// Start and end, two zeros for none.
// The C interface has a row of numbers for a record.
pub fn span_values(span: Option<(u64, u64)>) -> [u64; 2]
    ensures { result ≡ span_values span }
{
    match span {
        Some((start, end)) => [start, end],
        None => [0, 0],
    }
}
