// What one slot's bytes hold: its status, and what its header shows whether or not the slot is valid.
ghost use Rattle.std.specs.Prelude.{◌≡◌, ◌≤◌, length, take};
ghost use Rattle.slot.specs.Header.{magic};
ghost use Rattle.slot.specs.Numbers.{status_numbers};
ghost use Rattle.slot.specs.Read.{is_slot_length, is_blank, number_ok, passes_checksum, is_malformed, is_misplaced, check, header_info, passes_payload, status, validate, facts, header_facts};

use crate::header::{Header, read_header};
use crate::slot::{
    CRC_END, CRC_START, Expect, FORMAT_1, FORMAT_2, HEADER_LEN, HeaderFacts, MAGIC,
    MAX_LOG2_SLOT_SIZE, MIN_LOG2_SLOT_SIZE, NumberedHeader, SLOT_COUNT, SlotInfo, SlotStatus,
};
use codec::codec::all_zero;
use codec::crc32c::{crc32c, crc32c_gap};

// Validates one slot read from `e.slot_offset`. Bytes and what is expected of them are two arguments, as in the Rust: a struct of both
// would be made for this call alone. `numbers` says the same in the numbers that C gets, a promise on which callers may rest.
#[tactic(auto, using(crate::proofs::Room::room), unfolding(crate::specs::Read::validate))]
pub fn validate(slot: &[u8], e: &Expect) -> SlotStatus
    ensures value { result ≡ validate slot.now e.now }
    ensures numbers { status_numbers result ≡ status_numbers (validate slot.now e.now) }
{
    if !is_slot_length(slot.len(), e.log2_slot_size) {
        return SlotStatus::BadLength;
    }
    if is_blank(slot) {
        return SlotStatus::Blank;
    }
    let Some(h) = read_header(slot) else {
        return SlotStatus::BadLength;
    };
    h.status(slot, h.check(slot, e))
}

// What `slot`'s header shows, or `None` when it shows nothing: wrong length, blank, or not a slot at all.
#[tactic(auto, using(crate::proofs::Room::room), unfolding(crate::specs::Read::header_facts))]
pub fn header_facts(slot: &[u8], e: &Expect) -> Option<HeaderFacts>
    ensures { result ≡ header_facts slot.now e.now }
{
    if !is_slot_length(slot.len(), e.log2_slot_size) || is_blank(slot) {
        return None;
    }
    let Some(h) = read_header(slot) else {
        return None;
    };
    h.facts(h.check(slot, e).is_ok())
}

// Both in one go: the slot's status, and what its header shows.
#[tactic(auto, using(crate::proofs::Room::room), unfolding(crate::specs::Read::validate, crate::specs::Read::header_facts))]
pub fn read_slot(slot: &[u8], e: &Expect) -> (SlotStatus, Option<HeaderFacts>)
    ensures { result ≡ (validate slot.now e.now, header_facts slot.now e.now) }
{
    if !is_slot_length(slot.len(), e.log2_slot_size) {
        return (SlotStatus::BadLength, None);
    }
    if is_blank(slot) {
        return (SlotStatus::Blank, None);
    }
    let Some(h) = read_header(slot) else {
        return (SlotStatus::BadLength, None);
    };
    let checked = h.check(slot, e);
    (h.status(slot, checked), h.facts(checked.is_ok()))
}

// Here and in `is_blank` a slot is asked to have 128 bytes: a type that says so would be taken apart at each use, since the checks need the
// slot's own length too.
impl Header {
    // Every check up to the payload's CRC, in their order. `Err` carries the first status that fails.
    #[tactic(auto, using(crate::proofs::Room::passes_within, crate::proofs::Room::stands), unfolding(crate::specs::Read::check))]
    #[inline(always)]
    fn check(&self, slot: &[u8], e: &Expect) -> Result<(), SlotStatus>
        requires size { 128 ≤ length slot.now }
        requires stands { self.now.magic ≡ take 8 slot.now }
        ensures { result ≡ check slot.now self.now e.now }
    {
        if self.magic != MAGIC {
            return Err(SlotStatus::BadMagic);
        }
        if !self.passes_checksum(slot) {
            return Err(SlotStatus::BadHeaderCrc);
        }
        if self.format_major != e.format_major
            || !matches!(self.format_major, FORMAT_1 | FORMAT_2)
        {
            return Err(SlotStatus::UnsupportedVersion {
                major: self.format_major,
            });
        }
        if self.incompat_flags != 0 {
            return Err(SlotStatus::Incompatible {
                flags: self.incompat_flags,
            });
        }
        if self.is_malformed(e.numbered) {
            return Err(SlotStatus::Malformed);
        }
        if self.volume_uuid != e.volume_uuid {
            return Err(SlotStatus::Foreign);
        }
        if self.object_id != e.object_id {
            return Err(SlotStatus::WrongObject);
        }
        if self.is_misplaced(e) {
            return Err(SlotStatus::Misplaced);
        }
        if self.payload_len as usize > slot.len() - usize::from(self.header_len) {
            return Err(SlotStatus::Malformed);
        }
        Ok(())
    }

    // Whether the header has the checksum that it stores, over the length that it says. The magic stands, so its bytes and the zeros
    // after it are summed when this is compiled.
    #[tactic(auto, unfolding(crate::specs::Read::passes_checksum, crate::specs::Read::header_sum))]
    fn passes_checksum(&self, slot: &[u8]) -> bool
        requires size { 128 ≤ length slot.now }
        requires stands { take 8 slot.now ≡ magic }
        ensures { result ≡ passes_checksum slot.now self.now }
    {
        let len = usize::from(self.header_len);
        (HEADER_LEN..=slot.len()).contains(&len)
            && crc32c_gap(&MAGIC, CRC_END - CRC_START, &slot[CRC_END..len]) == self.header_crc32c
    }

    // Whether a field holds a value that is never written.
    #[tactic(auto, unfolding(crate::specs::Read::is_malformed))]
    fn is_malformed(&self, numbered: bool) -> bool
        ensures { result ≡ is_malformed self.now numbered }
    {
        self.generation == 0
            || self.slot_count != SLOT_COUNT
            || self.slot_index > 1
            || self.reserved0 != 0
            || self.reserved1 != 0
            || self.reserved2 != [0; 24]
            || !number_ok(self.format_major, numbered, self.meta_seq)
            || (self.format_major == FORMAT_2 && usize::from(self.header_len) != HEADER_LEN)
    }

    // Whether the slot records another location, slot index or size than it was read with.
    fn is_misplaced(&self, e: &Expect) -> bool
        ensures { result ≡ is_misplaced self.now e.now }
    {
        self.slot_offset != e.slot_offset
            || self.slot_index != e.slot_index.as_u8()
            || self.log2_slot_size != e.log2_slot_size
    }

    // The status of a checked header: Valid if the payload has the CRC that the header says.
    fn status(&self, slot: &[u8], checked: Result<(), SlotStatus>) -> SlotStatus
        ensures { result ≡ status slot.now self.now checked }
    {
        match checked {
            Err(status) => status,
            Ok(()) if self.passes_payload(slot) => SlotStatus::Valid(self.info()),
            Ok(()) => SlotStatus::BadPayloadCrc,
        }
    }

    // Whether the payload has the checksum that the header says.
    #[tactic(auto, unfolding(crate::specs::Read::passes_payload, crate::specs::Payload::payload))]
    fn passes_payload(&self, slot: &[u8]) -> bool
        ensures { result ≡ passes_payload slot.now self.now }
    {
        crc32c(self.info().payload(slot)) == self.payload_crc32c
    }

    // What a valid slot shows of its header, field by field: the two have names in common and no derive that copies them.
    fn info(&self) -> SlotInfo
        ensures { result ≡ header_info self.now }
    {
        SlotInfo {
            generation: self.generation,
            owner_generation: self.owner_generation,
            header_crc32c: self.header_crc32c,
            prev_header_crc32c: self.prev_header_crc32c,
            ro_compat_flags: self.ro_compat_flags,
            compat_flags: self.compat_flags,
            meta_seq: self.meta_seq,
            payload_start: self.header_len,
            payload_len: self.payload_len,
        }
    }

    // What the header shows, where its magic stands: its own checksum as stored, and more where it passed its checks.
    fn facts(&self, passed: bool) -> Option<HeaderFacts>
        ensures { result ≡ facts self.now passed }
    {
        if self.magic != MAGIC {
            return None;
        }
        Some(HeaderFacts {
            stored_header_crc32c: self.header_crc32c,
            numbered: passed.then_some(NumberedHeader {
                generation: self.generation,
                meta_seq: self.meta_seq,
                prev_header_crc32c: self.prev_header_crc32c,
            }),
        })
    }
}

// The number is at least 1 in format 2 read as numbered, else 0.
fn number_ok(format_major: u16, numbered: bool, meta_seq: u64) -> bool
    ensures { result ≡ number_ok format_major numbered meta_seq }
{
    match (format_major, numbered) {
        (FORMAT_2, true) => meta_seq >= 1,
        _ => meta_seq == 0,
    }
}

// Whether a slot of this length has the size that is expected: 2 to the `log2`, from 512 bytes to 64 KiB.
#[tactic(auto, unfolding(crate::specs::Read::is_slot_length))]
fn is_slot_length(len: usize, log2: u8) -> bool
    ensures { result ≡ is_slot_length len log2 }
{
    (MIN_LOG2_SLOT_SIZE..=MAX_LOG2_SLOT_SIZE).contains(&log2) && len == 1 << log2
}

// Whether a slot was never written: a header of zeros.
fn is_blank(slot: &[u8]) -> bool
    requires { 128 ≤ length slot.now }
    ensures { result ≡ is_blank slot.now }
{
    all_zero(&slot[..HEADER_LEN])
}
