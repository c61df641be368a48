// The cursor for C hosts: a number or a run of bytes at a position, which moves on where the step is done.
//
// A refusal, 6 for a read and 7 for a write, leaves the position, the value and every byte as they were.
//
// The C interface has one function a type: each is written out, with buffer and position as a host hands them over.
ghost use Rattle.std.specs.Prelude.{◌≡◌, replicate};
ghost use Rattle.std.specs.Int.{w8, w16, w32, w64, to_le_bytes};
ghost use Rattle.codec.specs.Cursor.{number, run, write, remaining};
ghost use Rattle.store_io.specs.Host.{after_read, run_start, after_write};

use codec::codec::{Reader, Writer};

// A read past the end of the buffer.
const TRUNCATED: u32 = 6;

// A write past the end of the buffer.
const OVERFLOW: u32 = 7;

// Hands over what was read, and moves on.
fn give<T: Copy>(read: Option<(T, Reader)>, position: &mut usize, value: &mut T) -> u32
    ensures { (result, position.new, value.new) ≡ after_read position.old value.old read }
{
    let Some((found, next)) = read else {
        return TRUNCATED;
    };
    *value = found;
    *position = next.pos;
    0
}

// How many bytes of `bytes` are left to read at `position`.
#[unsafe(no_mangle)]
pub extern "C" fn sio_remaining(bytes: &[u8], position: usize) -> usize
    ensures { result ≡ remaining bytes.now (record { pos = position }) }
{
    Reader { pos: position }.remaining(bytes)
}

// Reads a little-endian `u8`.
#[unsafe(no_mangle)]
pub extern "C" fn sio_read_u8(bytes: &[u8], position: &mut usize, value: &mut u8) -> u32
    ensures { (result, position.new, value.new) ≡ after_read position.old value.old (number w8 bytes.now (record { pos = position.old })) }
{
    give(Reader { pos: *position }.u8(bytes), position, value)
}

// Reads a little-endian `u16`.
#[unsafe(no_mangle)]
pub extern "C" fn sio_read_u16(bytes: &[u8], position: &mut usize, value: &mut u16) -> u32
    ensures { (result, position.new, value.new) ≡ after_read position.old value.old (number w16 bytes.now (record { pos = position.old })) }
{
    give(Reader { pos: *position }.u16(bytes), position, value)
}

// Reads a little-endian `u32`.
#[unsafe(no_mangle)]
pub extern "C" fn sio_read_u32(bytes: &[u8], position: &mut usize, value: &mut u32) -> u32
    ensures { (result, position.new, value.new) ≡ after_read position.old value.old (number w32 bytes.now (record { pos = position.old })) }
{
    give(Reader { pos: *position }.u32(bytes), position, value)
}

// Reads a little-endian `u64`.
#[unsafe(no_mangle)]
pub extern "C" fn sio_read_u64(bytes: &[u8], position: &mut usize, value: &mut u64) -> u32
    ensures { (result, position.new, value.new) ≡ after_read position.old value.old (number w64 bytes.now (record { pos = position.old })) }
{
    give(Reader { pos: *position }.u64(bytes), position, value)
}

// Reads a run of `count` bytes: `start` is where it starts.
#[unsafe(no_mangle)]
pub extern "C" fn sio_read_bytes(
    bytes: &[u8],
    position: &mut usize,
    count: usize,
    start: &mut usize,
) -> u32
    ensures { (result, position.new, start.new) ≡ after_read position.old start.old (run_start count bytes.now position.old) }
{
    let Some((_, next)) = (Reader { pos: *position }).bytes(bytes, count) else {
        return TRUNCATED;
    };
    *start = *position;
    *position = next.pos;
    0
}

// Reads 16 bytes.
#[unsafe(no_mangle)]
pub extern "C" fn sio_read_array16(bytes: &[u8], position: &mut usize, value: &mut [u8; 16]) -> u32
    ensures { (result, position.new, value.new) ≡ after_read position.old value.old (run 16 bytes.now (record { pos = position.old })) }
{
    give(Reader { pos: *position }.array(bytes), position, value)
}

// Reads 24 bytes.
#[unsafe(no_mangle)]
pub extern "C" fn sio_read_array24(bytes: &[u8], position: &mut usize, value: &mut [u8; 24]) -> u32
    ensures { (result, position.new, value.new) ≡ after_read position.old value.old (run 24 bytes.now (record { pos = position.old })) }
{
    give(Reader { pos: *position }.array(bytes), position, value)
}

// Writes a little-endian `u8`.
#[unsafe(no_mangle)]
pub extern "C" fn sio_write_u8(bytes: &mut [u8], position: &mut usize, value: u8) -> u32
    ensures { (result, position.new, bytes.new) ≡ after_write position.old (write (to_le_bytes w8 value) bytes.old (record { pos = position.old })) }
{
    let Some(next) = (Writer { pos: *position }).u8(bytes, value) else {
        return OVERFLOW;
    };
    *position = next.pos;
    0
}

// Writes a little-endian `u16`.
#[unsafe(no_mangle)]
pub extern "C" fn sio_write_u16(bytes: &mut [u8], position: &mut usize, value: u16) -> u32
    ensures { (result, position.new, bytes.new) ≡ after_write position.old (write (to_le_bytes w16 value) bytes.old (record { pos = position.old })) }
{
    let Some(next) = (Writer { pos: *position }).u16(bytes, value) else {
        return OVERFLOW;
    };
    *position = next.pos;
    0
}

// Writes a little-endian `u32`.
#[unsafe(no_mangle)]
pub extern "C" fn sio_write_u32(bytes: &mut [u8], position: &mut usize, value: u32) -> u32
    ensures { (result, position.new, bytes.new) ≡ after_write position.old (write (to_le_bytes w32 value) bytes.old (record { pos = position.old })) }
{
    let Some(next) = (Writer { pos: *position }).u32(bytes, value) else {
        return OVERFLOW;
    };
    *position = next.pos;
    0
}

// Writes a little-endian `u64`.
#[unsafe(no_mangle)]
pub extern "C" fn sio_write_u64(bytes: &mut [u8], position: &mut usize, value: u64) -> u32
    ensures { (result, position.new, bytes.new) ≡ after_write position.old (write (to_le_bytes w64 value) bytes.old (record { pos = position.old })) }
{
    let Some(next) = (Writer { pos: *position }).u64(bytes, value) else {
        return OVERFLOW;
    };
    *position = next.pos;
    0
}

// Writes all of `src`.
#[unsafe(no_mangle)]
pub extern "C" fn sio_write_bytes(bytes: &mut [u8], position: &mut usize, src: &[u8]) -> u32
    ensures { (result, position.new, bytes.new) ≡ after_write position.old (write src.now bytes.old (record { pos = position.old })) }
{
    let Some(next) = (Writer { pos: *position }).bytes(bytes, src) else {
        return OVERFLOW;
    };
    *position = next.pos;
    0
}

// Writes `count` zeros.
#[unsafe(no_mangle)]
pub extern "C" fn sio_write_zeros(bytes: &mut [u8], position: &mut usize, count: usize) -> u32
    ensures { (result, position.new, bytes.new) ≡ after_write position.old (write (replicate count 0) bytes.old (record { pos = position.old })) }
{
    let Some(next) = (Writer { pos: *position }).zeros(bytes, count) else {
        return OVERFLOW;
    };
    *position = next.pos;
    0
}
