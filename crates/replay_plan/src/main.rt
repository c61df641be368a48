// Replays the answers on numbers, plans and next writes, which compare/src/list_plan.rs makes, against the functions that C hosts call.
//
// A line of standard input is a case, `NAME INPUT EXPECTED`: the function's answer to INPUT must be EXPECTED, byte for byte. Numbers are
// little-endian; their widths in bytes are in brackets.
//
// | NAME | INPUT | EXPECTED |
// |---|---|---|
// | num | operator (1), FRAMES | refusal (1), where not refused the operator's next number (8) |
// | win | operator (1), FRAMES | refusal (1), where not refused the number above its winners (8) |
// | pln | pair (8), FRAMES | refusal (1), where not refused PLAN |
// | hea | clean mark (1), FRAMES | refusal (1), where not refused the pair (8) and PLAN |
// | wrt | pair (8), FIELDS, BUFFER, PAYLOAD, FRAMES | refusal (1), where not refused PLAN, header checksum (4) and the buffer's bytes |
//
// - FRAMES: how often the first frame stands (2), that frame, and the others, to the end of the field.
// - PLAN: slot, generation, previous checksum, number (8 each).
// - FIELDS: volume0 (8), volume1 (8), object_id (8), a_offset (8), b_offset (8), log2_slot_size (1), owner_generation (8), compat_flags (4).
// - BUFFER: a length (2), at most 1,024, and a byte (1), which the buffer holds everywhere before the call.
// - PAYLOAD: a length (2) and so many bytes.
//
// Before the call each number that is to be found, and the checksum, has all bits set. A refusal that changes what it was lent is packed as
// an answer, so that the case differs.
#![tactic(auto)]

use arrayvec::ArrayVec;
use cases::input::{first_length, first_size, first_u8, first_u32, first_u64, narrow};
use cases::replay::{Bytes, Table};
use judge::frames::FRAME;
use std::io;
use store_io::planning::{
    sio_heal_number, sio_next_number, sio_next_write, sio_plan_heal, sio_plan_write,
};

/// The longest slot in a list, and the answer that has it: a refusal, a plan of four numbers, the header checksum and the slot.
const SLOT: usize = 1024;

const LONGEST_ANSWER: usize = 1 + 4 * 8 + 4 + SLOT;

/// Room for frames of more pairs than are planned for, to be refused.
type Frames = ArrayVec<u8, 8192>;

/// What stands for no number and no checksum before the call.
const NO_NUMBER: u64 = u64::MAX;

const NO_CHECKSUM: u32 = u32::MAX;

struct Plans;

fn main(rt: HostRuntime) -> io::Result<()> {
    Plans::run(rt.alloc(), rt.reader(), &mut rt.stdout())
}

impl Table for Plans {
    const NAMES: &'static [&'static str] = &["num", "win", "pln", "hea", "wrt"];

    const LONGEST: usize = 65_536;

    const FIELD: usize = LONGEST_ANSWER;

    fn answer(name: &[u8], input: &[u8], answer: &mut Bytes) -> Option<()> {
        match name {
            b"num" => num(input, answer),
            b"win" => win(input, answer),
            b"pln" => pln(input, answer),
            b"hea" => hea(input, answer),
            b"wrt" => wrt(input, answer),
            _ => None,
        }
    }
}

fn read_frames(input: &[u8]) -> Option<Frames> {
    let (times, bytes) = first_length(input)?;
    let (first, others) = bytes.split_at(bytes.len().min(FRAME));
    let mut frames = Frames::new();
    for _ in 0..times {
        frames.try_extend_from_slice(first).ok()?;
    }
    frames.try_extend_from_slice(others).ok()?;
    Some(frames)
}

// ---- numbers and plans

// A function for each of two that C calls, with the same arguments: an exported function has one type.

fn num(input: &[u8], answer: &mut Bytes) -> Option<()> {
    let (operator_id, rest) = first_u8(input)?;
    let frames = read_frames(rest)?;
    let mut number = NO_NUMBER;
    let refusal = sio_next_number(&frames, operator_id, &mut number);
    put_found(answer, refusal, &[number])
}

fn win(input: &[u8], answer: &mut Bytes) -> Option<()> {
    let (operator_id, rest) = first_u8(input)?;
    let frames = read_frames(rest)?;
    let mut number = NO_NUMBER;
    let refusal = sio_heal_number(&frames, operator_id, &mut number);
    put_found(answer, refusal, &[number])
}

fn pln(input: &[u8], answer: &mut Bytes) -> Option<()> {
    let (pair, rest) = first_size(input)?;
    let frames = read_frames(rest)?;
    let mut plan = [NO_NUMBER; 4];
    let refusal = sio_plan_write(&frames, pair, &mut plan);
    put_found(answer, refusal, &plan)
}

fn hea(input: &[u8], answer: &mut Bytes) -> Option<()> {
    let (clean, rest) = first_u8(input)?;
    let frames = read_frames(rest)?;
    let mut plan = [NO_NUMBER; 5];
    let refusal = sio_plan_heal(&frames, clean, &mut plan);
    put_found(answer, refusal, &plan)
}

fn put_found(answer: &mut Bytes, refusal: u32, found: &[u64]) -> Option<()> {
    answer.try_push(narrow(refusal)).ok()?;
    if refusal != 0 && found.iter().all(|number| *number == NO_NUMBER) {
        return Some(());
    }
    put_numbers(answer, found)
}

fn put_numbers(answer: &mut Bytes, numbers: &[u64]) -> Option<()> {
    for number in numbers {
        answer.try_extend_from_slice(&number.to_le_bytes()).ok()?;
    }
    Some(())
}

// ---- next writes

fn wrt(input: &[u8], answer: &mut Bytes) -> Option<()> {
    let (pair, rest) = first_size(input)?;
    let (volume0, rest) = first_u64(rest)?;
    let (volume1, rest) = first_u64(rest)?;
    let (object_id, rest) = first_u64(rest)?;
    let (a_offset, rest) = first_u64(rest)?;
    let (b_offset, rest) = first_u64(rest)?;
    let (log2_slot_size, rest) = first_u8(rest)?;
    let (owner_generation, rest) = first_u64(rest)?;
    let (compat_flags, rest) = first_u32(rest)?;
    let (length, rest) = first_length(rest)?;
    let (byte, rest) = first_u8(rest)?;
    let (payload_length, rest) = first_length(rest)?;
    let payload = rest.get(..payload_length)?;
    let frames = read_frames(rest.get(payload_length..)?)?;
    let mut slot = Bytes::try_from([byte; SLOT].get(..length)?).ok()?;
    let mut plan = [NO_NUMBER; 4];
    let mut header_crc32c = NO_CHECKSUM;
    let refusal = sio_next_write(
        &frames,
        pair,
        volume0,
        volume1,
        object_id,
        a_offset,
        b_offset,
        log2_slot_size,
        owner_generation,
        compat_flags,
        payload,
        &mut slot,
        &mut plan,
        &mut header_crc32c,
    );
    answer.try_push(narrow(refusal)).ok()?;
    if refusal != 0
        && plan == [NO_NUMBER; 4]
        && header_crc32c == NO_CHECKSUM
        && slot.iter().all(|b| *b == byte)
    {
        return Some(());
    }
    put_numbers(answer, &plan)?;
    answer
        .try_extend_from_slice(&header_crc32c.to_le_bytes())
        .ok()?;
    answer.try_extend_from_slice(&slot).ok()
}
