// The slot as it is written. Its header and its body are lent on as parts of the one slot buffer.
ghost use Rattle.std.specs.Prelude.{◌≡◌, ◌+◌, ◌-◌, ◌^◌, ◌<◌, ◌≤◌, ◌++◌, length, replicate, Ok};
ghost use Rattle.codec.specs.Crc32c.{crc32c};
ghost use Rattle.codec.specs.Cursor.{write_row};
ghost use Rattle.slot.specs.Write.{header_row, header_bytes, header_crc, slot_bytes, format_ok, encode};

use crate::slot::{
    CRC_END, CRC_START, EncodeError, FORMAT_1, FORMAT_2, HEADER_LEN, MAGIC, MAX_LOG2_SLOT_SIZE,
    MIN_LOG2_SLOT_SIZE, SLOT_COUNT, SlotFields,
};
use codec::codec::{Writer, copy};
use codec::crc32c::crc32c;

// Encodes a complete slot into `out`, which must be exactly the slot size. Gives the header's CRC, which the next generation records as its
// `prev_header_crc32c`. A refusal keeps `out`.
#[tactic(auto, using(crate::proofs::Room::power_room), unfolding(crate::specs::Write::encode, crate::specs::Write::encode_check, crate::specs::Write::slot_bytes))]
pub fn encode(out: &mut [u8], f: &SlotFields, payload: &[u8]) -> Result<u32, EncodeError>
    ensures { (out.new, result) ≡ encode f.now payload.now out.old }
{
    if !(MIN_LOG2_SLOT_SIZE..=MAX_LOG2_SLOT_SIZE).contains(&f.log2_slot_size) {
        return Err(EncodeError::SlotSize);
    }
    if out.len() != 1 << f.log2_slot_size {
        return Err(EncodeError::BufferLength);
    }
    if payload.len() > out.len() - HEADER_LEN {
        return Err(EncodeError::PayloadTooLarge);
    }
    if f.generation == 0 {
        return Err(EncodeError::ZeroGeneration);
    }
    if !has_format(f) {
        return Err(EncodeError::Format);
    }
    write_slot(out, f, payload)
}

// Format 2, or format 1 with no number.
fn has_format(f: &SlotFields) -> bool
    ensures { result ≡ format_ok f.now }
{
    f.format_major == FORMAT_2 || (f.format_major == FORMAT_1 && f.meta_seq == 0)
}

// Writes body and header, each lent as its part of the slot.
#[tactic(auto, unfolding(crate::specs::Write::slot_bytes, crate::specs::Write::header_crc, crate::specs::Write::written_header))]
fn write_slot(out: &mut [u8], f: &SlotFields, payload: &[u8]) -> Result<u32, EncodeError>
    requires size { length out.old ≡ 2 ^ f.now.log2_slot_size }
    requires room { 128 + length payload.now ≤ length out.old }
    requires short { length payload.now < 2 ^ 32 }
    ensures value { result ≡ Ok (header_crc f.now payload.now) }
    ensures out_after { out.new ≡ slot_bytes f.now payload.now }
{
    let (header, body) = out.split_at_mut(HEADER_LEN);
    fill_body(body, payload);
    seal(header, f, payload.len() as u32, crc32c(payload))
}

// The payload, and zeros after it.
fn fill_body(body: &mut [u8], payload: &[u8])
    requires { length payload.now ≤ length body.old }
    ensures { body.new ≡ payload.now ++ replicate (length body.old - length payload.now) 0 }
{
    let (front, rest) = body.split_at_mut(payload.len());
    copy(front, payload);
    rest.fill(0);
}

// Writes the header. Its CRC is taken while its own field is still zero, and then put there. The CRC of a header that was not written is
// not given: it is the buffer's length that is refused.
fn seal(
    header: &mut [u8],
    f: &SlotFields,
    payload_len: u32,
    payload_crc32c: u32,
) -> Result<u32, EncodeError>
    requires { length header.old ≡ 128 }
    ensures value { result ≡ Ok (crc32c (header_bytes 0 f.now payload_len payload_crc32c)) }
    ensures header_after { header.new ≡ header_bytes (crc32c (header_bytes 0 f.now payload_len payload_crc32c)) f.now payload_len payload_crc32c }
{
    let Some(_) = write_header(header, f, payload_len, payload_crc32c) else {
        return Err(EncodeError::BufferLength);
    };
    let crc = crc32c(header);
    header[CRC_START..CRC_END].copy_from_slice(&crc.to_le_bytes());
    Ok(crc)
}

// Writes every field in the order of the layout, the header's own CRC as zero. Field by field, as it is read: the layout stands in the row.
fn write_header(
    header: &mut [u8],
    f: &SlotFields,
    payload_len: u32,
    payload_crc32c: u32,
) -> Option<Writer>
    ensures { (header.new, result) ≡ write_row (header_row 0 f.now payload_len payload_crc32c) header.old (record { pos = 0 }) }
{
    let w = Writer { pos: 0 };
    let w = w.bytes(header, &MAGIC)?;
    let w = w.u32(header, 0)?; // header_crc32c, filled in after the CRC is computed
    let w = w.u16(header, HEADER_LEN as u16)?;
    let w = w.u16(header, f.format_major)?;
    let w = w.u32(header, 0)?; // incompat_flags
    let w = w.u32(header, 0)?; // ro_compat_flags
    let w = w.u32(header, f.compat_flags)?;
    let w = w.u32(header, payload_crc32c)?;
    let w = w.bytes(header, &f.volume_uuid)?;
    let w = w.u64(header, f.object_id)?;
    let w = w.u64(header, f.generation)?;
    let w = w.u64(header, f.slot_offset)?;
    let w = w.u32(header, payload_len)?;
    let w = w.u8(header, f.slot_index.as_u8())?;
    let w = w.u8(header, SLOT_COUNT)?;
    let w = w.u8(header, f.log2_slot_size)?;
    let w = w.u8(header, 0)?;
    let w = w.u32(header, f.prev_header_crc32c)?;
    let w = w.u32(header, 0)?;
    let w = w.u64(header, f.owner_generation)?;
    let w = w.u64(header, f.meta_seq)?; // zero in format 1 (checked by `encode`)
    w.zeros(header, 24)
}
