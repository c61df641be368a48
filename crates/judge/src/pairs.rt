// What a pair shows by itself: its winner, and the slot opposite the winner.
ghost use Rattle.std.specs.Prelude.{◌≡◌};
ghost use Rattle.judge.specs.Pairs.{numbered, opposite, pair_case, has_candidate};
ghost use Rattle.judge.specs.Numbers.{number};
ghost use Rattle.judge.specs.Verdict.{by_index};

use slot::slot::{NumberedHeader, SlotIndex};

// The numbers of a slot whose header passed every check.
#[derive(Clone, Copy)]
pub struct Version {
    pub generation: u64,
    pub meta_seq: u64,
    pub header_crc32c: u32,
    pub prev_header_crc32c: u32,
    // Of a Valid slot alone: facts do not show it.
    pub owner_generation: u64,
}

// What the judge is told of one slot.
#[derive(Clone, Copy)]
pub enum Shown {
    Valid(Version),
    // The header passes every check, the payload fails its checksum.
    BadPayload(NumberedHeader),
    // The header fails its checksum, which is stored.
    BadHeader(u32),
    Blank,
    // Written by a newer format, or with a must-understand flag this version does not know.
    Unsupported,
    // Anything else.
    Other,
}

// Both slots of one pair, and its operator. Of its own beside `PairRead`, whose slots are as they were read: one type over both would be no
// plainer.
#[derive(Clone, Copy)]
pub struct Pair {
    pub a: Shown,
    pub b: Shown,
    // Whose records the pair holds: the caller's to know, stored in no slot.
    pub operator: u8,
}

// The slot opposite a valid winner, before the rules of the whole store.
#[derive(Clone, Copy)]
pub enum Opposite {
    // The previous version, intact, or a slot never written opposite a first-generation winner.
    Nothing,
    // The winner's predecessor, damaged.
    OlderDamaged,
    // A candidate for the write in flight, with its number if it is readable.
    Candidate(Option<u64>),
    Damage,
}

// What a pair's own slots show.
#[derive(Clone, Copy)]
pub enum PairCase {
    // A slot is Unsupported.
    Refused,
    // No valid slot, or two of one generation.
    Lost,
    Won(SlotIndex, Opposite),
}

impl Shown {
    // The number that the slot counts for.
    pub(crate) fn numbered(self) -> Option<u64>
        ensures { result ≡ numbered self }
    {
        match self {
            Shown::Valid(v) => Some(v.meta_seq),
            Shown::BadPayload(n) => Some(n.meta_seq),
            _ => None,
        }
    }

    // The same, 0 where there is none.
    pub fn number(self) -> u64
        ensures { result ≡ number (numbered self) }
    {
        self.numbered().unwrap_or(0)
    }

    // What it is opposite the one valid slot, which is the winner's at `index`. Only B can be blank, and only beside a first write.
    fn opposite(self, index: SlotIndex, winner: Version) -> Opposite
        ensures { result ≡ opposite index winner self }
    {
        let g = winner.generation;
        match (self, index) {
            (Shown::Blank, SlotIndex::A) if g == 1 => Opposite::Nothing,
            (Shown::BadPayload(n), _) if n.generation < g => Opposite::OlderDamaged,
            (Shown::BadPayload(n), _)
                if n.generation - g == 1 && n.prev_header_crc32c == winner.header_crc32c => {
                Opposite::Candidate(Some(n.meta_seq))
            }
            (Shown::BadHeader(stored), _) if g >= 2 && stored == winner.prev_header_crc32c => {
                Opposite::OlderDamaged
            }
            (Shown::BadHeader(_), _) => Opposite::Candidate(None),
            _ => Opposite::Damage,
        }
    }
}

impl Pair {
    // The slot at an index, as the report of a pair gives a status: a trait over both pairs would be longer than the two.
    pub fn slot(self, index: SlotIndex) -> Shown
        ensures { result ≡ by_index index self.a self.b }
    {
        match index {
            SlotIndex::A => self.a,
            SlotIndex::B => self.b,
        }
    }

    // The winner, and what stands opposite it. Two valid slots of one generation are a fork.
    pub fn case(self) -> PairCase
        ensures { result ≡ pair_case self }
    {
        match (self.a, self.b) {
            (Shown::Unsupported, _) | (_, Shown::Unsupported) => PairCase::Refused,
            (Shown::Valid(a), Shown::Valid(b)) if a.generation == b.generation => PairCase::Lost,
            (Shown::Valid(a), Shown::Valid(b)) if a.generation > b.generation => {
                PairCase::Won(SlotIndex::A, Opposite::Nothing)
            }
            (Shown::Valid(_), Shown::Valid(_)) => PairCase::Won(SlotIndex::B, Opposite::Nothing),
            (Shown::Valid(winner), other) => {
                PairCase::Won(SlotIndex::A, other.opposite(SlotIndex::A, winner))
            }
            (other, Shown::Valid(winner)) => {
                PairCase::Won(SlotIndex::B, other.opposite(SlotIndex::B, winner))
            }
            _ => PairCase::Lost,
        }
    }
}

impl PairCase {
    // Whether the pair has a candidate for the write in flight, qualifying or not.
    pub(crate) fn has_candidate(self) -> bool
        ensures { result ≡ has_candidate self }
    {
        matches!(self, PairCase::Won(_, Opposite::Candidate(_)))
    }
}
