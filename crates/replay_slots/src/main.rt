// Replays the reference's answers on slots and pairs, which compare/src/list_slots.rs makes, against the functions that C hosts call.
//
// A line of standard input is a case, `NAME INPUT EXPECTED`: the function's answer to INPUT must be EXPECTED, byte for byte. Numbers are
// little-endian; their widths in bytes are in brackets.
//
// | NAME | INPUT | EXPECTED |
// |---|---|---|
// | enc | FIELDS, BUFFER, payload | refusal (1), where not refused header checksum (4) and SLOT |
// | val | PLACE, SLOT | status (1), the nine numbers found (8 each) |
// | fac | PLACE, SLOT | facts (1), the four numbers found (8 each) |
// | frm | PLACE, SLOT | status (1), the part (34) |
// | dec | SIDE of A, SIDE of B | refusal (1), where not refused the report (5) |
//
// - FIELDS: volume0 (8), volume1 (8), object_id (8), generation (8), owner_generation (8), slot_offset (8), index (4), log2_slot_size (1),
//   prev_header_crc32c (4), format_major (2), meta_seq (8), compat_flags (4).
// - BUFFER: a length (2) and a byte (1), which the buffer holds everywhere before the call.
// - PLACE: volume0 (8), volume1 (8), object_id (8), slot_offset (8), index (4), log2_slot_size (1), format_major (2), numbered (4).
// - SLOT: a length (2), at most 1,024, and the first bytes of the slot, to the end of the field; all others up to the length are 0.
// - SIDE: status (4), generation (8), header_crc32c (4), prev_header_crc32c (4).
//
// A refusal that changes what it was lent is packed as an answer, so that the case differs.
#![tactic(auto)]

use cases::input::{first_length, first_u8, first_u16, first_u32, first_u64, narrow};
use cases::replay::{Bytes, Table};
use judge::part::PART;
use std::io;
use store_io::pairs::sio_decide;
use store_io::slots::{sio_encode, sio_frame_slot, sio_header_facts, sio_validate};

/// The longest slot in a list.
const SLOT: usize = 1024;

/// What stands for no checksum before the call.
const NO_CHECKSUM: u32 = 0xffff_ffff;

struct Slots;

fn main(rt: HostRuntime) -> io::Result<()> {
    Slots::run(rt.alloc(), rt.reader(), &mut rt.stdout())
}

impl Table for Slots {
    const NAMES: &'static [&'static str] = &["enc", "val", "fac", "frm", "dec"];

    const LONGEST: usize = 65_536;

    const FIELD: usize = 1024;

    fn answer(name: &[u8], input: &[u8], answer: &mut Bytes) -> Option<()> {
        match name {
            b"enc" => enc(input, answer),
            b"val" => val(input, answer),
            b"fac" => fac(input, answer),
            b"frm" => frm(input, answer),
            b"dec" => dec(input, answer),
            _ => None,
        }
    }
}

// ---- slots written

fn enc(input: &[u8], answer: &mut Bytes) -> Option<()> {
    let (volume0, rest) = first_u64(input)?;
    let (volume1, rest) = first_u64(rest)?;
    let (object_id, rest) = first_u64(rest)?;
    let (generation, rest) = first_u64(rest)?;
    let (owner_generation, rest) = first_u64(rest)?;
    let (slot_offset, rest) = first_u64(rest)?;
    let (index, rest) = first_u32(rest)?;
    let (log2_slot_size, rest) = first_u8(rest)?;
    let (prev_header_crc32c, rest) = first_u32(rest)?;
    let (format_major, rest) = first_u16(rest)?;
    let (meta_seq, rest) = first_u64(rest)?;
    let (compat_flags, rest) = first_u32(rest)?;
    let (length, rest) = first_length(rest)?;
    let (byte, payload) = first_u8(rest)?;
    let mut slot = Bytes::try_from([byte; SLOT].get(..length)?).ok()?;
    let mut header_crc32c = NO_CHECKSUM;
    let refusal = sio_encode(
        &mut slot,
        volume0,
        volume1,
        object_id,
        generation,
        owner_generation,
        slot_offset,
        index,
        log2_slot_size,
        prev_header_crc32c,
        format_major,
        meta_seq,
        compat_flags,
        payload,
        &mut header_crc32c,
    );
    answer.try_push(narrow(refusal)).ok()?;
    if refusal != 0 && header_crc32c == NO_CHECKSUM && slot.iter().all(|b| *b == byte) {
        return Some(());
    }
    answer
        .try_extend_from_slice(&header_crc32c.to_le_bytes())
        .ok()?;
    put_slot(answer, &slot)
}

// The length of a slot and its bytes up to the last that is not 0.
fn put_slot(answer: &mut Bytes, slot: &[u8]) -> Option<()> {
    let length = u16::try_from(slot.len()).ok()?;
    let used = match slot.iter().rposition(|byte| *byte != 0) {
        Some(last) => last + 1,
        None => 0,
    };
    answer.try_extend_from_slice(&length.to_le_bytes()).ok()?;
    answer.try_extend_from_slice(slot.get(..used)?).ok()
}

// ---- slots read

// Where a slot is expected, and the slot's bytes.
#[derive(Drop)]
struct Placed {
    volume0: u64,
    volume1: u64,
    object_id: u64,
    slot_offset: u64,
    index: u32,
    log2_slot_size: u8,
    format_major: u16,
    numbered: u32,
    slot: Bytes,
}

fn read_placed(input: &[u8]) -> Option<Placed> {
    let (volume0, rest) = first_u64(input)?;
    let (volume1, rest) = first_u64(rest)?;
    let (object_id, rest) = first_u64(rest)?;
    let (slot_offset, rest) = first_u64(rest)?;
    let (index, rest) = first_u32(rest)?;
    let (log2_slot_size, rest) = first_u8(rest)?;
    let (format_major, rest) = first_u16(rest)?;
    let (numbered, rest) = first_u32(rest)?;
    let (length, bytes) = first_length(rest)?;
    let blank = [0u8; SLOT];
    let zeros = blank.get(..length)?.get(bytes.len()..)?;
    let mut slot = Bytes::new();
    slot.try_extend_from_slice(bytes).ok()?;
    slot.try_extend_from_slice(zeros).ok()?;
    Some(Placed {
        volume0,
        volume1,
        object_id,
        slot_offset,
        index,
        log2_slot_size,
        format_major,
        numbered,
        slot,
    })
}

// A function for each of three that C calls, with the same arguments and another list: an exported function has one type.

fn val(input: &[u8], answer: &mut Bytes) -> Option<()> {
    let p = read_placed(input)?;
    let mut found = [0u64; 9];
    let status = sio_validate(
        &p.slot,
        p.volume0,
        p.volume1,
        p.object_id,
        p.slot_offset,
        p.index,
        p.log2_slot_size,
        p.format_major,
        p.numbered,
        &mut found,
    );
    put_numbers(answer, status, &found)
}

fn fac(input: &[u8], answer: &mut Bytes) -> Option<()> {
    let p = read_placed(input)?;
    let mut found = [0u64; 4];
    let facts = sio_header_facts(
        &p.slot,
        p.volume0,
        p.volume1,
        p.object_id,
        p.slot_offset,
        p.index,
        p.log2_slot_size,
        p.format_major,
        p.numbered,
        &mut found,
    );
    put_numbers(answer, facts, &found)
}

fn frm(input: &[u8], answer: &mut Bytes) -> Option<()> {
    let p = read_placed(input)?;
    let mut part = [0u8; PART];
    let status = sio_frame_slot(
        &p.slot,
        p.volume0,
        p.volume1,
        p.object_id,
        p.slot_offset,
        p.index,
        p.log2_slot_size,
        p.format_major,
        p.numbered,
        &mut part,
    );
    answer.try_push(narrow(status)).ok()?;
    answer.try_extend_from_slice(&part).ok()
}

fn put_numbers(answer: &mut Bytes, number: u32, found: &[u64]) -> Option<()> {
    answer.try_push(narrow(number)).ok()?;
    for value in found {
        answer.try_extend_from_slice(&value.to_le_bytes()).ok()?;
    }
    Some(())
}

// ---- pairs

fn dec(input: &[u8], answer: &mut Bytes) -> Option<()> {
    let (a_status, rest) = first_u32(input)?;
    let (a_generation, rest) = first_u64(rest)?;
    let (a_own, rest) = first_u32(rest)?;
    let (a_previous, rest) = first_u32(rest)?;
    let (b_status, rest) = first_u32(rest)?;
    let (b_generation, rest) = first_u64(rest)?;
    let (b_own, rest) = first_u32(rest)?;
    let (b_previous, _) = first_u32(rest)?;
    let before = [255u8; 5];
    let mut report = before;
    let refusal = sio_decide(
        a_status,
        a_generation,
        a_own,
        a_previous,
        b_status,
        b_generation,
        b_own,
        b_previous,
        &mut report,
    );
    answer.try_push(narrow(refusal)).ok()?;
    if refusal != 0 && report == before {
        return Some(());
    }
    answer.try_extend_from_slice(&report).ok()
}
