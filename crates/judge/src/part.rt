// A slot's part of a frame: what a host hands to the judge of one slot, and what the judge is told by it.
//
// | Offset | Size | Field |
// |---|---|---|
// | 0 | 1 | status, 0 to 12 |
// | 1 | 1 | facts: 0 none, 1 the stored checksum, 2 numbered as well |
// | 2 | 8 | generation |
// | 10 | 8 | number |
// | 18 | 4 | own checksum |
// | 22 | 4 | previous checksum |
// | 26 | 8 | owner generation |
//
// Fields come from the Valid info under status 12, else from the facts, which show no owner generation; those not given are zero.
ghost use Rattle.std.specs.Prelude.{◌≡◌, ◌+◌, ◌≤◌, length, take, drop};
ghost use Rattle.judge.specs.Pairs.{numbered};
ghost use Rattle.judge.specs.Numbers.{number};
ghost use Rattle.judge.specs.Part.{part_width, version_of_info, info_of, numbered_of, version_of_facts, facts_number, part_of, part_bytes, part_at, part_status, part_shown, is_in_range};

use crate::pairs::{Shown, Version};
use slot::slot::{HeaderFacts, NumberedHeader, SlotInfo, SlotStatus};

/// The width of a slot's part.
pub const PART: usize = 34;

// What a frame says of one slot.
#[derive(Clone, Copy)]
pub struct SlotPart {
    pub code: u8,
    pub facts: u8,
    pub version: Version,
}

impl Version {
    // Of a valid slot.
    pub(crate) fn of_info(info: SlotInfo) -> Self
        ensures { result ≡ version_of_info info }
    {
        Version {
            generation: info.generation,
            meta_seq: info.meta_seq,
            header_crc32c: info.header_crc32c,
            prev_header_crc32c: info.prev_header_crc32c,
            owner_generation: info.owner_generation,
        }
    }

    // And back; what a version does not hold is 0.
    pub fn info(self) -> SlotInfo
        ensures { result ≡ info_of self }
    {
        SlotInfo {
            generation: self.generation,
            owner_generation: self.owner_generation,
            header_crc32c: self.header_crc32c,
            prev_header_crc32c: self.prev_header_crc32c,
            ro_compat_flags: 0,
            compat_flags: 0,
            meta_seq: self.meta_seq,
            payload_start: 0,
            payload_len: 0,
        }
    }

    // As much of it as a header shows without its payload.
    pub fn numbered(self) -> NumberedHeader
        ensures { result ≡ numbered_of self }
    {
        NumberedHeader {
            generation: self.generation,
            meta_seq: self.meta_seq,
            prev_header_crc32c: self.prev_header_crc32c,
        }
    }

    // As far as a header shows it.
    pub fn of_facts(facts: Option<HeaderFacts>) -> Self
        ensures { result ≡ version_of_facts facts }
    {
        let mut version = Version {
            generation: 0,
            meta_seq: 0,
            header_crc32c: 0,
            prev_header_crc32c: 0,
            owner_generation: 0,
        };
        if let Some(facts) = facts {
            version.header_crc32c = facts.stored_header_crc32c;
            if let Some(n) = facts.numbered {
                version.generation = n.generation;
                version.meta_seq = n.meta_seq;
                version.prev_header_crc32c = n.prev_header_crc32c;
            }
        }
        version
    }
}

// By a match: the facts are an option in an option, which has no number to cast.
/// What a header shows: 0 nothing, 1 its stored checksum, 2 the fields of a numbered slot too.
pub fn facts_number(facts: Option<HeaderFacts>) -> u8
    ensures { result ≡ facts_number facts }
{
    match facts {
        None => 0,
        Some(HeaderFacts { numbered: None, .. }) => 1,
        Some(_) => 2,
    }
}

// The bytes at a place in a frame.
fn array_at<const N: usize>(frame: &[u8], at: usize) -> [u8; N]
    requires { at + N ≤ length frame.now }
    ensures { result ≡ take N (drop at frame.now) }
{
    let mut bytes = [0u8; N];
    bytes.copy_from_slice(&frame[at..at + N]);
    bytes
}

impl SlotPart {
    // Filled from a slot's status and what its header shows.
    pub fn new(status: SlotStatus, facts: Option<HeaderFacts>) -> Self
        ensures { result ≡ part_of status facts }
    {
        let version = match status {
            SlotStatus::Valid(info) => Version::of_info(info),
            _ => Version::of_facts(facts),
        };
        SlotPart {
            code: status.code(),
            facts: facts_number(facts),
            version,
        }
    }

    // The part as it stands in a frame. A row of bytes, so that the layout is read here: a loop over the fields would be no plainer.
    #[tactic(auto, unfolding(crate::specs::Part::part_bytes))]
    pub fn bytes(self) -> [u8; PART]
        ensures { result ≡ part_bytes self }
    {
        let g = self.version.generation.to_le_bytes();
        let n = self.version.meta_seq.to_le_bytes();
        let own = self.version.header_crc32c.to_le_bytes();
        let prev = self.version.prev_header_crc32c.to_le_bytes();
        let o = self.version.owner_generation.to_le_bytes();
        [
            self.code, self.facts, g[0], g[1], g[2], g[3], g[4], g[5], g[6], g[7], n[0], n[1],
            n[2], n[3], n[4], n[5], n[6], n[7], own[0], own[1], own[2], own[3], prev[0], prev[1],
            prev[2], prev[3], o[0], o[1], o[2], o[3], o[4], o[5], o[6], o[7],
        ]
    }

    // And read back from there, field by field, so that the layout is read here.
    #[tactic(auto, unfolding(codec::specs::Bytes::le))]
    pub(crate) fn read(frame: &[u8], at: usize) -> Self
        requires { at + part_width ≤ length frame.now }
        ensures { result ≡ part_at frame.now at }
    {
        SlotPart {
            code: frame[at],
            facts: frame[at + 1],
            version: Version {
                generation: u64::from_le_bytes(array_at(frame, at + 2)),
                meta_seq: u64::from_le_bytes(array_at(frame, at + 10)),
                header_crc32c: u32::from_le_bytes(array_at(frame, at + 18)),
                prev_header_crc32c: u32::from_le_bytes(array_at(frame, at + 22)),
                owner_generation: u64::from_le_bytes(array_at(frame, at + 26)),
            },
        }
    }

    // The status that it has the number of; None where the number is no status's.
    #[inline(always)]
    pub fn status(self) -> Option<SlotStatus>
        ensures { result ≡ part_status self }
    {
        SlotStatus::from_code(u32::from(self.code), self.version.info())
    }

    // Whether status and facts are numbers of one.
    pub fn is_in_range(self) -> bool
        ensures { result ≡ is_in_range self }
    {
        self.status().is_some() && self.facts <= 2
    }

    // The number that it counts for, 0 where it is not numbered: apart from what it shows, which takes a jump for each slot.
    pub(crate) fn number(self) -> u64
        ensures { result ≡ number (numbered (part_shown self)) }
    {
        match (self.status(), self.facts) {
            (Some(SlotStatus::Valid(_)), _) | (Some(SlotStatus::BadPayloadCrc), 2) => {
                self.version.meta_seq
            }
            _ => 0,
        }
    }

    // What it tells the judge.
    pub(crate) fn shown(self) -> Shown
        ensures { result ≡ part_shown self }
    {
        match (self.status(), self.facts) {
            (Some(SlotStatus::Valid(_)), _) => Shown::Valid(self.version),
            (Some(SlotStatus::BadPayloadCrc), 2) => Shown::BadPayload(self.version.numbered()),
            (Some(SlotStatus::BadHeaderCrc), 1..) => Shown::BadHeader(self.version.header_crc32c),
            (Some(SlotStatus::Blank), _) => Shown::Blank,
            (Some(SlotStatus::UnsupportedVersion { .. } | SlotStatus::Incompatible { .. }), _) =>
                Shown::Unsupported,
            _ => Shown::Other,
        }
    }
}
