// Slots for C hosts.
//
// The C interface has one function an answer, and no records: each is written out, with a slot's identity number by number.
ghost use Rattle.std.specs.Prelude.{◌≡◌};
ghost use Rattle.slot.specs.Status.{error_number};
ghost use Rattle.slot.specs.Read.{validate, header_facts};
ghost use Rattle.slot.specs.Write.{encode};
ghost use Rattle.store_io.specs.Arguments.{expect_of, fields_of};
ghost use Rattle.store_io.specs.Host.{encoded};
ghost use Rattle.store_io.specs.Slots.{status_answer, facts_values, facts_answer, part_answer};

use crate::answers::give;
use crate::arguments::{expect_of, index_of, volume_id};
use judge::pairs::Version;
use judge::part::{PART, SlotPart, facts_number};
use slot::encode::encode;
use slot::slot::{HeaderFacts, SlotFields};
use slot::validate::{header_facts, read_slot, validate};

// Encodes a complete slot.
#[unsafe(no_mangle)]
pub extern "C" fn sio_encode(
    slot: &mut [u8],
    volume0: u64,
    volume1: u64,
    object_id: u64,
    generation: u64,
    owner_generation: u64,
    slot_offset: u64,
    index: u32,
    log2_slot_size: u8,
    prev_header_crc32c: u32,
    format_major: u16,
    meta_seq: u64,
    compat_flags: u32,
    payload: &[u8],
    header_crc32c: &mut u32,
) -> u32
    ensures { (result, header_crc32c.new, slot.new) ≡ encoded error_number header_crc32c.old (encode (fields_of volume0 volume1 object_id generation owner_generation slot_offset index log2_slot_size prev_header_crc32c format_major meta_seq compat_flags) payload.now slot.old) }
{
    let fields = SlotFields {
        volume_uuid: volume_id(volume0, volume1),
        object_id,
        generation,
        owner_generation,
        slot_offset,
        slot_index: index_of(index),
        log2_slot_size,
        prev_header_crc32c,
        format_major,
        meta_seq,
        compat_flags,
    };
    give(encode(slot, &fields, payload), header_crc32c)
}

// The status of a slot and its values.
#[unsafe(no_mangle)]
pub extern "C" fn sio_validate(
    slot: &[u8],
    volume0: u64,
    volume1: u64,
    object_id: u64,
    slot_offset: u64,
    index: u32,
    log2_slot_size: u8,
    format_major: u16,
    numbered: u32,
    found: &mut [u64; 9],
) -> u32
    ensures { (result, found.new) ≡ status_answer (validate slot.now (expect_of volume0 volume1 object_id slot_offset index log2_slot_size format_major numbered)) }
{
    let e = expect_of(
        volume0,
        volume1,
        object_id,
        slot_offset,
        index,
        log2_slot_size,
        format_major,
        numbered,
    );
    let status = validate(slot, &e);
    *found = status.values();
    u32::from(status.code())
}

// What a slot's header shows.
#[unsafe(no_mangle)]
pub extern "C" fn sio_header_facts(
    slot: &[u8],
    volume0: u64,
    volume1: u64,
    object_id: u64,
    slot_offset: u64,
    index: u32,
    log2_slot_size: u8,
    format_major: u16,
    numbered: u32,
    found: &mut [u64; 4],
) -> u32
    ensures { (result, found.new) ≡ facts_answer (header_facts slot.now (expect_of volume0 volume1 object_id slot_offset index log2_slot_size format_major numbered)) }
{
    let e = expect_of(
        volume0,
        volume1,
        object_id,
        slot_offset,
        index,
        log2_slot_size,
        format_major,
        numbered,
    );
    let facts = header_facts(slot, &e);
    *found = facts_values(facts);
    u32::from(facts_number(facts))
}

// Stored checksum, generation, number, previous checksum; zeros for those not shown.
// The C interface has a row of numbers for a record.
pub fn facts_values(facts: Option<HeaderFacts>) -> [u64; 4]
    ensures { result ≡ facts_values facts }
{
    let v = Version::of_facts(facts);
    [
        u64::from(v.header_crc32c),
        v.generation,
        v.meta_seq,
        u64::from(v.prev_header_crc32c),
    ]
}

// A slot's part of a frame.
#[unsafe(no_mangle)]
pub extern "C" fn sio_frame_slot(
    slot: &[u8],
    volume0: u64,
    volume1: u64,
    object_id: u64,
    slot_offset: u64,
    index: u32,
    log2_slot_size: u8,
    format_major: u16,
    numbered: u32,
    part: &mut [u8; PART],
) -> u32
    ensures { (result, part.new) ≡ part_answer slot.now (expect_of volume0 volume1 object_id slot_offset index log2_slot_size format_major numbered) }
{
    let e = expect_of(
        volume0,
        volume1,
        object_id,
        slot_offset,
        index,
        log2_slot_size,
        format_major,
        numbered,
    );
    let (status, facts) = read_slot(slot, &e);
    *part = SlotPart::new(status, facts).bytes();
    u32::from(status.code())
}
