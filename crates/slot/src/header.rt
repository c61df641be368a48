// A slot's header as it is stored, read through the cursor in the order of the layout.
ghost use Rattle.std.specs.Prelude.{◌≡◌};
ghost use Rattle.slot.specs.Header.{header_read};

use codec::codec::Reader;

// The fields of a header as stored, nothing of them checked.
#[derive(Clone, Copy)]
pub struct Header {
    pub magic: [u8; 8],
    pub header_crc32c: u32,
    pub header_len: u16,
    pub format_major: u16,
    pub incompat_flags: u32,
    pub ro_compat_flags: u32,
    pub compat_flags: u32,
    pub payload_crc32c: u32,
    pub volume_uuid: [u8; 16],
    pub object_id: u64,
    pub generation: u64,
    pub slot_offset: u64,
    pub payload_len: u32,
    pub slot_index: u8,
    pub slot_count: u8,
    pub log2_slot_size: u8,
    pub reserved0: u8,
    pub prev_header_crc32c: u32,
    pub reserved1: u32,
    pub owner_generation: u64,
    pub meta_seq: u64,
    pub reserved2: [u8; 24],
}

// The header at the start of `slot`, if it is there. Field by field: the layout stands in the row.
#[tactic(auto, unfolding(crate::specs::Header::header_read))]
#[inline(always)]
pub fn read_header(slot: &[u8]) -> Option<Header>
    ensures { result ≡ header_read slot.now }
{
    let r = Reader { pos: 0 };
    let Some(magic) = r.array(slot) else {
        return None;
    };
    let (magic, r) = magic;
    let Some((header_crc32c, r)) = r.u32(slot) else {
        return None;
    };
    let Some((header_len, r)) = r.u16(slot) else {
        return None;
    };
    let Some((format_major, r)) = r.u16(slot) else {
        return None;
    };
    let Some((incompat_flags, r)) = r.u32(slot) else {
        return None;
    };
    let Some((ro_compat_flags, r)) = r.u32(slot) else {
        return None;
    };
    let Some((compat_flags, r)) = r.u32(slot) else {
        return None;
    };
    let Some((payload_crc32c, r)) = r.u32(slot) else {
        return None;
    };
    let Some(volume_uuid) = r.array(slot) else {
        return None;
    };
    let (volume_uuid, r) = volume_uuid;
    let Some((object_id, r)) = r.u64(slot) else {
        return None;
    };
    let Some((generation, r)) = r.u64(slot) else {
        return None;
    };
    let Some((slot_offset, r)) = r.u64(slot) else {
        return None;
    };
    let Some((payload_len, r)) = r.u32(slot) else {
        return None;
    };
    let Some((slot_index, r)) = r.u8(slot) else {
        return None;
    };
    let Some((slot_count, r)) = r.u8(slot) else {
        return None;
    };
    let Some((log2_slot_size, r)) = r.u8(slot) else {
        return None;
    };
    let Some((reserved0, r)) = r.u8(slot) else {
        return None;
    };
    let Some((prev_header_crc32c, r)) = r.u32(slot) else {
        return None;
    };
    let Some((reserved1, r)) = r.u32(slot) else {
        return None;
    };
    let Some((owner_generation, r)) = r.u64(slot) else {
        return None;
    };
    let Some((meta_seq, r)) = r.u64(slot) else {
        return None;
    };
    let Some(reserved2) = r.array(slot) else {
        return None;
    };
    let (reserved2, _) = reserved2;
    Some(Header {
        magic,
        header_crc32c,
        header_len,
        format_major,
        incompat_flags,
        ro_compat_flags,
        compat_flags,
        payload_crc32c,
        volume_uuid,
        object_id,
        generation,
        slot_offset,
        payload_len,
        slot_index,
        slot_count,
        log2_slot_size,
        reserved0,
        prev_header_crc32c,
        reserved1,
        owner_generation,
        meta_seq,
        reserved2,
    })
}
