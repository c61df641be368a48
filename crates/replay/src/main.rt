// Replays the reference's answers, which compare/src/list_codec.rs makes, against the functions that C hosts call.
//
// A line of standard input is a case, `NAME INPUT EXPECTED`: the function's answer to INPUT must be EXPECTED, byte for byte. Numbers are
// little-endian in their own width, sizes 8 bytes; a buffer comes last, or after its length in 2 bytes where a field follows.
//
// | NAME | INPUT | EXPECTED |
// |---|---|---|
// | crc | bytes | checksum |
// | app | checksum, bytes | checksum |
// | gap | head, zeros (2 bytes), tail | checksum |
// | ru1 ru2 ru4 ru8 a16 a24 | position, buffer | refusal (1 byte), position, value where not refused |
// | run | position, count, buffer | refusal, position, start where not refused |
// | wu1 wu2 wu4 wu8 | position, value, buffer | refusal, position, buffer |
// | wby | position, source, buffer | refusal, position, buffer |
// | wze | position, count, buffer | refusal, position, buffer |
#![tactic(auto)]

use arrayvec::ArrayVec;
use cases::input::{first_length, first_size, first_u8, first_u16, first_u32, first_u64, narrow};
use cases::replay::{Bytes, Table};
use std::io;
use store_io::checksum::{sio_crc32c, sio_crc32c_append, sio_crc32c_gap};
use store_io::cursor::{
    sio_read_array16, sio_read_array24, sio_read_bytes, sio_read_u8, sio_read_u16, sio_read_u32,
    sio_read_u64, sio_write_bytes, sio_write_u8, sio_write_u16, sio_write_u32, sio_write_u64,
    sio_write_zeros,
};

/// A buffer that is written to: no input has more bytes.
type Buffer = ArrayVec<u8, 1024>;

struct Codec;

fn main(rt: HostRuntime) -> io::Result<()> {
    Codec::run(rt.alloc(), rt.reader(), &mut rt.stdout())
}

impl Table for Codec {
    const NAMES: &'static [&'static str] = &[
        "crc", "app", "gap", "ru1", "ru2", "ru4", "ru8", "run", "a16", "a24", "wu1", "wu2", "wu4",
        "wu8", "wby", "wze",
    ];

    const LONGEST: usize = 65_536;

    const FIELD: usize = 1024;

    fn answer(name: &[u8], input: &[u8], answer: &mut Bytes) -> Option<()> {
        match name {
            b"crc" => crc(input, answer),
            b"app" => app(input, answer),
            b"gap" => gap(input, answer),
            b"ru1" => ru1(input, answer),
            b"ru2" => ru2(input, answer),
            b"ru4" => ru4(input, answer),
            b"ru8" => ru8(input, answer),
            b"run" => run(input, answer),
            b"a16" => a16(input, answer),
            b"a24" => a24(input, answer),
            b"wu1" => wu1(input, answer),
            b"wu2" => wu2(input, answer),
            b"wu4" => wu4(input, answer),
            b"wu8" => wu8(input, answer),
            b"wby" => wby(input, answer),
            b"wze" => wze(input, answer),
            _ => None,
        }
    }
}

// ---- checksums

fn crc(input: &[u8], answer: &mut Bytes) -> Option<()> {
    let crc = sio_crc32c(input);
    answer.try_extend_from_slice(&crc.to_le_bytes()).ok()
}

fn app(input: &[u8], answer: &mut Bytes) -> Option<()> {
    let (crc, bytes) = first_u32(input)?;
    let crc = sio_crc32c_append(crc, bytes);
    answer.try_extend_from_slice(&crc.to_le_bytes()).ok()
}

fn gap(input: &[u8], answer: &mut Bytes) -> Option<()> {
    let (head, rest) = first_length(input)?;
    let (zeros, tail) = first_length(rest.get(head..)?)?;
    let crc = sio_crc32c_gap(rest.get(..head)?, zeros, tail);
    answer.try_extend_from_slice(&crc.to_le_bytes()).ok()
}

// ---- reads

// A function for each that C calls, here and among the writes: an exported function has one type, and so has what calls it.

fn ru1(input: &[u8], answer: &mut Bytes) -> Option<()> {
    let (mut position, buffer) = first_size(input)?;
    let mut value = 0u8;
    let refusal = sio_read_u8(buffer, &mut position, &mut value);
    read(answer, refusal, position, &value.to_le_bytes())
}

fn ru2(input: &[u8], answer: &mut Bytes) -> Option<()> {
    let (mut position, buffer) = first_size(input)?;
    let mut value = 0u16;
    let refusal = sio_read_u16(buffer, &mut position, &mut value);
    read(answer, refusal, position, &value.to_le_bytes())
}

fn ru4(input: &[u8], answer: &mut Bytes) -> Option<()> {
    let (mut position, buffer) = first_size(input)?;
    let mut value = 0u32;
    let refusal = sio_read_u32(buffer, &mut position, &mut value);
    read(answer, refusal, position, &value.to_le_bytes())
}

fn ru8(input: &[u8], answer: &mut Bytes) -> Option<()> {
    let (mut position, buffer) = first_size(input)?;
    let mut value = 0u64;
    let refusal = sio_read_u64(buffer, &mut position, &mut value);
    read(answer, refusal, position, &value.to_le_bytes())
}

fn run(input: &[u8], answer: &mut Bytes) -> Option<()> {
    let (mut position, rest) = first_size(input)?;
    let (count, buffer) = first_size(rest)?;
    let mut start = 0usize;
    let refusal = sio_read_bytes(buffer, &mut position, count, &mut start);
    read(answer, refusal, position, &start.to_le_bytes())
}

fn a16(input: &[u8], answer: &mut Bytes) -> Option<()> {
    let (mut position, buffer) = first_size(input)?;
    let mut value = [0u8; 16];
    let refusal = sio_read_array16(buffer, &mut position, &mut value);
    read(answer, refusal, position, &value)
}

fn a24(input: &[u8], answer: &mut Bytes) -> Option<()> {
    let (mut position, buffer) = first_size(input)?;
    let mut value = [0u8; 24];
    let refusal = sio_read_array24(buffer, &mut position, &mut value);
    read(answer, refusal, position, &value)
}

// The refusal, the position, and the value where it is not refused.
fn read(answer: &mut Bytes, refusal: u32, position: usize, value: &[u8]) -> Option<()> {
    begun(answer, refusal, position)?;
    if refusal != 0 {
        return Some(());
    }
    answer.try_extend_from_slice(value).ok()
}

// ---- writes

fn wu1(input: &[u8], answer: &mut Bytes) -> Option<()> {
    let (mut position, rest) = first_size(input)?;
    let (value, buffer) = first_u8(rest)?;
    let mut buffer = Buffer::try_from(buffer).ok()?;
    let refusal = sio_write_u8(&mut buffer, &mut position, value);
    written(answer, refusal, position, &buffer)
}

fn wu2(input: &[u8], answer: &mut Bytes) -> Option<()> {
    let (mut position, rest) = first_size(input)?;
    let (value, buffer) = first_u16(rest)?;
    let mut buffer = Buffer::try_from(buffer).ok()?;
    let refusal = sio_write_u16(&mut buffer, &mut position, value);
    written(answer, refusal, position, &buffer)
}

fn wu4(input: &[u8], answer: &mut Bytes) -> Option<()> {
    let (mut position, rest) = first_size(input)?;
    let (value, buffer) = first_u32(rest)?;
    let mut buffer = Buffer::try_from(buffer).ok()?;
    let refusal = sio_write_u32(&mut buffer, &mut position, value);
    written(answer, refusal, position, &buffer)
}

fn wu8(input: &[u8], answer: &mut Bytes) -> Option<()> {
    let (mut position, rest) = first_size(input)?;
    let (value, buffer) = first_u64(rest)?;
    let mut buffer = Buffer::try_from(buffer).ok()?;
    let refusal = sio_write_u64(&mut buffer, &mut position, value);
    written(answer, refusal, position, &buffer)
}

fn wby(input: &[u8], answer: &mut Bytes) -> Option<()> {
    let (mut position, rest) = first_size(input)?;
    let (count, rest) = first_length(rest)?;
    let mut buffer = Buffer::try_from(rest.get(count..)?).ok()?;
    let refusal = sio_write_bytes(&mut buffer, &mut position, rest.get(..count)?);
    written(answer, refusal, position, &buffer)
}

fn wze(input: &[u8], answer: &mut Bytes) -> Option<()> {
    let (mut position, rest) = first_size(input)?;
    let (count, buffer) = first_size(rest)?;
    let mut buffer = Buffer::try_from(buffer).ok()?;
    let refusal = sio_write_zeros(&mut buffer, &mut position, count);
    written(answer, refusal, position, &buffer)
}

// The refusal, the position and the buffer.
fn written(answer: &mut Bytes, refusal: u32, position: usize, buffer: &[u8]) -> Option<()> {
    begun(answer, refusal, position)?;
    answer.try_extend_from_slice(buffer).ok()
}

fn begun(answer: &mut Bytes, refusal: u32, position: usize) -> Option<()> {
    answer.try_push(narrow(refusal)).ok()?;
    answer.try_extend_from_slice(&position.to_le_bytes()).ok()
}
