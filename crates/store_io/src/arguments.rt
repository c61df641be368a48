// What the numbers of a C host stand for: the volume id is two of them, any index but 0 is B, any `numbered` but 0 is yes.
ghost use Rattle.std.specs.Prelude.{◌≡◌};
ghost use Rattle.store_io.specs.Arguments.{volume_id, index_of, expect_of, valid_of, status_or_valid};

use slot::slot::{Expect, SlotIndex, SlotInfo, SlotStatus};

// The volume id's first eight bytes are in the first number.
#[tactic(auto, unfolding(crate::specs::Arguments::volume_id))]
pub fn volume_id(volume0: u64, volume1: u64) -> [u8; 16]
    ensures { result ≡ volume_id volume0 volume1 }
{
    let mut id = [0; 16];
    id[..8].copy_from_slice(&volume0.to_le_bytes());
    id[8..].copy_from_slice(&volume1.to_le_bytes());
    id
}

// Any number but 0 is B: the C interface has a number for a case.
pub fn index_of(index: u32) -> SlotIndex
    ensures { result ≡ index_of index }
{
    if index == 0 {
        SlotIndex::A
    } else {
        SlotIndex::B
    }
}

// What a slot is read with.
pub fn expect_of(
    volume0: u64,
    volume1: u64,
    object_id: u64,
    slot_offset: u64,
    index: u32,
    log2_slot_size: u8,
    format_major: u16,
    numbered: u32,
) -> Expect
    ensures { result ≡ expect_of volume0 volume1 object_id slot_offset index log2_slot_size format_major numbered }
{
    Expect {
        volume_uuid: volume_id(volume0, volume1),
        object_id,
        slot_offset,
        slot_index: index_of(index),
        log2_slot_size,
        format_major,
        numbered: numbered != 0,
    }
}

// What `decide` looks at of a valid slot.
pub fn valid_of(generation: u64, header_crc32c: u32, prev_header_crc32c: u32) -> SlotInfo
    ensures { result ≡ valid_of generation header_crc32c prev_header_crc32c }
{
    SlotInfo {
        generation,
        owner_generation: 0,
        header_crc32c,
        prev_header_crc32c,
        ro_compat_flags: 0,
        compat_flags: 0,
        meta_seq: 0,
        payload_start: 0,
        payload_len: 0,
    }
}

/// The status with a number, where any number above 11 is a valid slot's. `sio_decide` refuses one above 12, and asks `from_code`.
pub fn status_of(
    code: u32,
    generation: u64,
    header_crc32c: u32,
    prev_header_crc32c: u32,
) -> SlotStatus
    ensures { result ≡ status_or_valid code generation header_crc32c prev_header_crc32c }
{
    let info = valid_of(generation, header_crc32c, prev_header_crc32c);
    SlotStatus::from_code(code, info).unwrap_or(SlotStatus::Valid(info))
}
