// Replays the reference's answers on metadata, which compare/src/list_meta.rs makes, against the functions that C hosts call.
//
// A line of standard input is a case, `NAME INPUT EXPECTED`: the function's answer to INPUT must be EXPECTED, byte for byte. Numbers are
// little-endian; their widths in bytes are in brackets.
//
// | NAME | INPUT | EXPECTED |
// |---|---|---|
// | nam | bytes | refusal (1), where not refused the name (24) and its length (1) |
// | pad | stored name (24) | the same |
// | vde | bytes | refusal, where not refused the eleven numbers found (8 each) |
// | ven | VOLUME, BUFFER | refusal, where not refused the bytes written (8) and the buffer |
// | bde | bytes | refusal, where not refused the seven numbers found (8 each) |
// | ben | BASE, BUFFER | as ven |
// | epp | log2 of the table slot's size (1) | entries (2) |
// | end | SIZES | refusal, where not refused the table's end (8) |
// | fit | SIZES, length of the file (8) | refusal |
// | pde | page index (4), most entries (2), bytes | refusal, where not refused the five numbers found (8 each) |
// | pen | page index (4), next_seq (4), count (2), BUFFER, entries | as ven |
// | ere | bytes | refusal, where not refused the fifteen numbers found (8 each) and the name (24) |
// | ewr | ENTRY, BUFFER | as ven |
// | ech | LIMITS, bytes | refusal, where not refused the thirteen numbers found (8 each), the name (24) and its length (1) |
// | raw | LIMITS, bytes | refusal, where not refused the entry as it is stored (96) |
// | ena | bytes | refusal, where not refused the name (24) and its length (1) |
// | enk | bytes | refusal, where not refused the kind (1), the name (24) and its length (1) |
// | rsp | LIMITS, bytes | refusal, where not refused start and end (8 each) |
//
// - BASE: log2 of the block size (1), log2 of the table slot's size (1), device index (2), owner generation (8), table offset (8), created
//   (8), features (8). VOLUME: BASE, table pages (4), entries per page (2), clean mark (4), flags (4).
// - BUFFER: a length (2), at most 1,024, and a byte (1), which the buffer holds everywhere before the call.
// - SIZES: log2 of the block size (1), log2 of the table slot's size (1), table pages (4).
// - ENTRY: seq (4), kind (1), state (1), flags (1), compatible flags (1), name (24), tag (4), extents (2), header A, header B, data size,
//   capacity, span start, span end, footprint number (8 each).
// - LIMITS: log2 of the block size (1), table end, length of the file, the page's number (8 each).
//
// A refusal that changes what it was lent is packed as an answer, so that the case differs.
#![tactic(auto)]

use cases::input::{first_length, first_u8, first_u16, first_u32, first_u64, narrow};
use cases::replay::{Bytes, Table};
use std::io;
use store_io::entries::{
    sio_check_entry, sio_entry_name, sio_entry_name_and_kind, sio_entry_to_raw, sio_read_entry,
    sio_reserved_span, sio_write_entry,
};
use store_io::names::{sio_region_name, sio_region_name_padded};
use store_io::pages::{sio_decode_page, sio_encode_page};
use store_io::volumes::{
    sio_check_file_len, sio_entries_per_page, sio_table_end, sio_volume_base_decode,
    sio_volume_base_encode, sio_volume_decode, sio_volume_encode,
};

/// What lent numbers and lengths are before the call.
const UNWRITTEN: u64 = 0xffff_ffff_ffff_ffff;

const NOTHING: usize = 0xffff_ffff;

const NO_NAME: [u8; 24] = [255; 24];

/// The longest buffer in a list, and the answer that has it: a refusal, the bytes written and the buffer.
const BUFFER: usize = 1024;

const LONGEST_ANSWER: usize = 1 + 8 + BUFFER;

struct Meta;

fn main(rt: HostRuntime) -> io::Result<()> {
    Meta::run(rt.alloc(), rt.reader(), &mut rt.stdout())
}

impl Table for Meta {
    const NAMES: &'static [&'static str] = &[
        "nam", "pad", "vde", "ven", "bde", "ben", "epp", "end", "fit", "pde", "pen", "ere", "ewr",
        "ech", "raw", "ena", "enk", "rsp",
    ];

    const LONGEST: usize = 65_536;

    const FIELD: usize = LONGEST_ANSWER;

    fn answer(name: &[u8], input: &[u8], answer: &mut Bytes) -> Option<()> {
        match name {
            b"nam" => nam(input, answer),
            b"pad" => pad(input, answer),
            b"vde" => vde(input, answer),
            b"ven" => ven(input, answer),
            b"bde" => bde(input, answer),
            b"ben" => ben(input, answer),
            b"epp" => epp(input, answer),
            b"end" => end(input, answer),
            b"fit" => fit(input, answer),
            b"pde" => pde(input, answer),
            b"pen" => pen(input, answer),
            b"ere" => ere(input, answer),
            b"ewr" => ewr(input, answer),
            b"ech" => ech(input, answer),
            b"raw" => raw(input, answer),
            b"ena" => ena(input, answer),
            b"enk" => enk(input, answer),
            b"rsp" => rsp(input, answer),
            _ => None,
        }
    }
}

// A function for each that C calls, here and below: an exported function has one type, and so has what calls it.

// ---- names

fn nam(input: &[u8], answer: &mut Bytes) -> Option<()> {
    let mut name = NO_NAME;
    let mut length = 255;
    let refusal = sio_region_name(input, &mut name, &mut length);
    put_name(answer, refusal, &name, length)
}

fn pad(input: &[u8], answer: &mut Bytes) -> Option<()> {
    let (stored, _) = input.split_first_chunk()?;
    let mut name = NO_NAME;
    let mut length = 255;
    let refusal = sio_region_name_padded(stored, &mut name, &mut length);
    put_name(answer, refusal, &name, length)
}

fn put_name(answer: &mut Bytes, refusal: u32, name: &[u8; 24], length: u8) -> Option<()> {
    answer.try_push(narrow(refusal)).ok()?;
    if refusal != 0 && *name == NO_NAME && length == 255 {
        return Some(());
    }
    answer.try_extend_from_slice(name).ok()?;
    answer.try_push(length).ok()
}

// ---- volume records

fn vde(input: &[u8], answer: &mut Bytes) -> Option<()> {
    let mut found = [UNWRITTEN; 11];
    let refusal = sio_volume_decode(input, &mut found);
    put_numbers(answer, refusal, &found)
}

fn bde(input: &[u8], answer: &mut Bytes) -> Option<()> {
    let mut found = [UNWRITTEN; 7];
    let refusal = sio_volume_base_decode(input, &mut found);
    put_numbers(answer, refusal, &found)
}

fn put_numbers(answer: &mut Bytes, refusal: u32, found: &[u64]) -> Option<()> {
    answer.try_push(narrow(refusal)).ok()?;
    if refusal != 0 && found.iter().all(|number| *number == UNWRITTEN) {
        return Some(());
    }
    for number in found {
        answer.try_extend_from_slice(&number.to_le_bytes()).ok()?;
    }
    Some(())
}

fn ven(input: &[u8], answer: &mut Bytes) -> Option<()> {
    let (log2_block_size, rest) = first_u8(input)?;
    let (log2_table_slot_size, rest) = first_u8(rest)?;
    let (device_index, rest) = first_u16(rest)?;
    let (owner_generation, rest) = first_u64(rest)?;
    let (table_offset, rest) = first_u64(rest)?;
    let (created_unix_s, rest) = first_u64(rest)?;
    let (features, rest) = first_u64(rest)?;
    let (table_pages, rest) = first_u32(rest)?;
    let (entries_per_page, rest) = first_u16(rest)?;
    let (clean_close, rest) = first_u32(rest)?;
    let (flags, rest) = first_u32(rest)?;
    let (mut bytes, fill, _) = buffer(rest)?;
    let mut count = NOTHING;
    let refusal = sio_volume_encode(
        &mut bytes,
        log2_block_size,
        log2_table_slot_size,
        device_index,
        owner_generation,
        table_offset,
        created_unix_s,
        features,
        table_pages,
        entries_per_page,
        clean_close,
        flags,
        &mut count,
    );
    put_written(answer, refusal, count, fill, &bytes)
}

fn ben(input: &[u8], answer: &mut Bytes) -> Option<()> {
    let (log2_block_size, rest) = first_u8(input)?;
    let (log2_table_slot_size, rest) = first_u8(rest)?;
    let (device_index, rest) = first_u16(rest)?;
    let (owner_generation, rest) = first_u64(rest)?;
    let (table_offset, rest) = first_u64(rest)?;
    let (created_unix_s, rest) = first_u64(rest)?;
    let (features, rest) = first_u64(rest)?;
    let (mut bytes, fill, _) = buffer(rest)?;
    let mut count = NOTHING;
    let refusal = sio_volume_base_encode(
        &mut bytes,
        log2_block_size,
        log2_table_slot_size,
        device_index,
        owner_generation,
        table_offset,
        created_unix_s,
        features,
        &mut count,
    );
    put_written(answer, refusal, count, fill, &bytes)
}

// ---- buffers

// A buffer as it is before the call, the byte that it holds everywhere, and what stands after both.
fn buffer(input: &[u8]) -> Option<(Bytes, u8, &[u8])> {
    let (length, rest) = first_length(input)?;
    let (fill, rest) = first_u8(rest)?;
    let bytes = Bytes::try_from([fill; BUFFER].get(..length)?).ok()?;
    Some((bytes, fill, rest))
}

// The bytes written and the buffer, or the refusal alone where both are as before.
fn put_written(
    answer: &mut Bytes,
    refusal: u32,
    count: usize,
    fill: u8,
    bytes: &[u8],
) -> Option<()> {
    answer.try_push(narrow(refusal)).ok()?;
    if refusal != 0 && count == NOTHING && bytes.iter().all(|byte| *byte == fill) {
        return Some(());
    }
    answer.try_extend_from_slice(&count.to_le_bytes()).ok()?;
    answer.try_extend_from_slice(bytes).ok()
}

// ---- the table's place

fn epp(input: &[u8], answer: &mut Bytes) -> Option<()> {
    let (log2_table, _) = first_u8(input)?;
    let entries = sio_entries_per_page(log2_table);
    answer.try_extend_from_slice(&entries.to_le_bytes()).ok()
}

fn end(input: &[u8], answer: &mut Bytes) -> Option<()> {
    let (log2_block_size, rest) = first_u8(input)?;
    let (log2_table_slot_size, rest) = first_u8(rest)?;
    let (table_pages, _) = first_u32(rest)?;
    let mut end = UNWRITTEN;
    let refusal = sio_table_end(log2_block_size, log2_table_slot_size, table_pages, &mut end);
    put_numbers(answer, refusal, &[end])
}

fn fit(input: &[u8], answer: &mut Bytes) -> Option<()> {
    let (log2_block_size, rest) = first_u8(input)?;
    let (log2_table_slot_size, rest) = first_u8(rest)?;
    let (table_pages, rest) = first_u32(rest)?;
    let (file_len, _) = first_u64(rest)?;
    let refusal = sio_check_file_len(log2_block_size, log2_table_slot_size, table_pages, file_len);
    answer.try_push(narrow(refusal)).ok()
}

// ---- pages

fn pde(input: &[u8], answer: &mut Bytes) -> Option<()> {
    let (page_index, rest) = first_u32(input)?;
    let (max_entries, bytes) = first_u16(rest)?;
    let mut found = [UNWRITTEN; 5];
    let refusal = sio_decode_page(bytes, page_index, max_entries, &mut found);
    put_numbers(answer, refusal, &found)
}

fn pen(input: &[u8], answer: &mut Bytes) -> Option<()> {
    let (page_index, rest) = first_u32(input)?;
    let (next_seq, rest) = first_u32(rest)?;
    let (count, rest) = first_u16(rest)?;
    let (mut bytes, fill, entries) = buffer(rest)?;
    let mut written = NOTHING;
    let refusal = sio_encode_page(
        &mut bytes,
        page_index,
        next_seq,
        count,
        entries,
        &mut written,
    );
    put_written(answer, refusal, written, fill, &bytes)
}

// ---- entries

fn ere(input: &[u8], answer: &mut Bytes) -> Option<()> {
    let mut found = [UNWRITTEN; 15];
    let mut name = NO_NAME;
    let refusal = sio_read_entry(input, &mut found, &mut name);
    put_numbers(answer, refusal, &found)?;
    if refusal != 0 && name == NO_NAME {
        return Some(());
    }
    answer.try_extend_from_slice(&name).ok()
}

fn ewr(input: &[u8], answer: &mut Bytes) -> Option<()> {
    let (seq, rest) = first_u32(input)?;
    let (kind, rest) = first_u8(rest)?;
    let (state, rest) = first_u8(rest)?;
    let (flags, rest) = first_u8(rest)?;
    let (compat_flags, rest) = first_u8(rest)?;
    let (name, rest) = rest.split_first_chunk()?;
    let (tag, rest) = first_u32(rest)?;
    let (extent_count, rest) = first_u16(rest)?;
    let (header_a, rest) = first_u64(rest)?;
    let (header_b, rest) = first_u64(rest)?;
    let (data_size, rest) = first_u64(rest)?;
    let (capacity, rest) = first_u64(rest)?;
    let (span_start, rest) = first_u64(rest)?;
    let (span_end, rest) = first_u64(rest)?;
    let (footprint_seq, rest) = first_u64(rest)?;
    let (mut bytes, fill, _) = buffer(rest)?;
    let mut written = NOTHING;
    let refusal = sio_write_entry(
        &mut bytes,
        seq,
        kind,
        state,
        flags,
        compat_flags,
        name,
        tag,
        extent_count,
        header_a,
        header_b,
        data_size,
        capacity,
        span_start,
        span_end,
        footprint_seq,
        &mut written,
    );
    put_written(answer, refusal, written, fill, &bytes)
}

// What an entry is checked with, and the entry.
#[derive(Clone, Copy)]
struct Limited<'a> {
    log2_block: u8,
    table_end: u64,
    file_len: u64,
    page_meta_seq: u64,
    entry: &'a [u8],
}

fn read_limited(input: &[u8]) -> Option<Limited<'_>> {
    let (log2_block, rest) = first_u8(input)?;
    let (table_end, rest) = first_u64(rest)?;
    let (file_len, rest) = first_u64(rest)?;
    let (page_meta_seq, entry) = first_u64(rest)?;
    Some(Limited {
        log2_block,
        table_end,
        file_len,
        page_meta_seq,
        entry,
    })
}

fn ech(input: &[u8], answer: &mut Bytes) -> Option<()> {
    let l = read_limited(input)?;
    let mut found = [UNWRITTEN; 13];
    let mut name = NO_NAME;
    let mut length = 255;
    let refusal = sio_check_entry(
        l.entry,
        l.log2_block,
        l.table_end,
        l.file_len,
        l.page_meta_seq,
        &mut found,
        &mut name,
        &mut length,
    );
    put_numbers(answer, refusal, &found)?;
    if refusal != 0 && name == NO_NAME && length == 255 {
        return Some(());
    }
    answer.try_extend_from_slice(&name).ok()?;
    answer.try_push(length).ok()
}

fn raw(input: &[u8], answer: &mut Bytes) -> Option<()> {
    let l = read_limited(input)?;
    let before = [255u8; 96];
    let mut raw = before;
    let refusal = sio_entry_to_raw(
        l.entry,
        l.log2_block,
        l.table_end,
        l.file_len,
        l.page_meta_seq,
        &mut raw,
    );
    answer.try_push(narrow(refusal)).ok()?;
    if refusal != 0 && raw == before {
        return Some(());
    }
    answer.try_extend_from_slice(&raw).ok()
}

fn ena(input: &[u8], answer: &mut Bytes) -> Option<()> {
    let mut name = NO_NAME;
    let mut length = 255;
    let refusal = sio_entry_name(input, &mut name, &mut length);
    put_name(answer, refusal, &name, length)
}

fn enk(input: &[u8], answer: &mut Bytes) -> Option<()> {
    let mut kind = 255;
    let mut name = NO_NAME;
    let mut length = 255;
    let refusal = sio_entry_name_and_kind(input, &mut kind, &mut name, &mut length);
    answer.try_push(narrow(refusal)).ok()?;
    if refusal != 0 && kind == 255 && name == NO_NAME && length == 255 {
        return Some(());
    }
    answer.try_push(kind).ok()?;
    answer.try_extend_from_slice(&name).ok()?;
    answer.try_push(length).ok()
}

fn rsp(input: &[u8], answer: &mut Bytes) -> Option<()> {
    let l = read_limited(input)?;
    let mut span = [UNWRITTEN; 2];
    let refusal = sio_reserved_span(l.entry, l.log2_block, l.table_end, l.file_len, &mut span);
    put_numbers(answer, refusal, &span)
}
