// The judge over a row of pairs as they were read, and a row of verdicts.
ghost use Rattle.std.specs.Prelude.{◌≡◌, ◌==◌, length, true, refl};
ghost use Rattle.judge.specs.Records.{shown_read, pair_read, judge_records, records_left};
ghost use Rattle.judge.specs.ReadBack.{same_length};
ghost use Rattle.judge.specs.Same.{NothingGiven, ChecksumGiven, NumbersGiven, SameJudge, IgnoredFields};

use crate::pairs::{Pair, Shown, Version};
use crate::row::{ReadPair, Verdicts};
use crate::verdict::{JudgeError, Judgement, PairVerdict};
use slot::slot::{HeaderFacts, SlotIndex, SlotStatus};

// One slot as read: its status, and what its header shows.
#[derive(Clone, Copy)]
pub struct SlotRead {
    pub status: SlotStatus,
    pub facts: Option<HeaderFacts>,
}

// Both slots of one pair, and its operator. Of its own beside `Pair`, whose slots are as the judge is told of them: one type over both would
// be no plainer.
#[derive(Clone, Copy)]
pub struct PairRead {
    pub a: SlotRead,
    pub b: SlotRead,
    pub operator: u8,
}

impl SlotRead {
    // What the judge is told of the slot.
    pub(crate) fn shown(self) -> Shown
        ensures { result ≡ shown_read self }
    {
        match (self.status, self.facts) {
            (SlotStatus::Valid(info), _) => Shown::Valid(Version::of_info(info)),
            (
                SlotStatus::BadPayloadCrc,
                Some(
                    HeaderFacts {
                        numbered: Some(n),
                        ..
                    },
                ),
            ) => Shown::BadPayload(n),
            (SlotStatus::BadHeaderCrc, Some(facts)) => Shown::BadHeader(facts.stored_header_crc32c),
            (SlotStatus::Blank, _) => Shown::Blank,
            (SlotStatus::UnsupportedVersion { .. } | SlotStatus::Incompatible { .. }, _) => {
                Shown::Unsupported
            }
            _ => Shown::Other,
        }
    }
}

impl ReadPair for PairRead {
    ghost shown = { pair_read };

    ghost within = { λ p. true };

    // Status and facts are of their types.
    fn is_in_range(&self) -> bool {
        true
    }

    fn operator(&self) -> u8 {
        self.operator
    }

    fn numbers(&self) -> (u64, u64) {
        (self.a.shown().number(), self.b.shown().number())
    }

    fn pair(&self) -> Pair {
        Pair {
            a: self.a.shown(),
            b: self.b.shown(),
            operator: self.operator,
        }
    }

    fn slot(&self, index: SlotIndex) -> Shown {
        match index {
            SlotIndex::A => self.a.shown(),
            SlotIndex::B => self.b.shown(),
        }
    }
}

// Verdicts as records.
struct VerdictSlice<'a>(&'a mut [PairVerdict]);

impl Verdicts for VerdictSlice<'_> {
    type Cell = PairVerdict;

    ghost cell = { λ v. v };

    ghost read = { λ v. v };

    ghost cells = { λ s. s.0.now };

    ghost fitting = { λ s n. length s.0.now == n };

    ghost place = { λ s. s.0.ghost_name };

    fn fits(&self, pairs: usize) -> bool {
        self.0.len() == pairs
    }

    fn verdict(&self, i: usize) -> PairVerdict {
        self.0[i]
    }

    fn put(&mut self, i: usize, v: PairVerdict) {
        self.0[i] = v;
    }

    ghost fitted = { λ s n. same_length (length s.0.now) n };

    ghost reads_back = { λ v. refl };
}

// Judges every pair and writes its verdict. `clean_close` is the volume winner's clean mark. Nothing is written where there is an error.
pub fn judge(
    pairs: &[PairRead],
    clean_close: bool,
    out: &mut [PairVerdict],
) -> Result<Judgement, JudgeError>
    ensures value { result ≡ judge_records pairs.now clean_close (length out.old) }
    ensures out_after { out.new ≡ records_left pairs.now clean_close out.old }
{
    let mut out = VerdictSlice(out);
    let answer = crate::row::judge(pairs, false, clean_close as u8, &mut out);
    let VerdictSlice(_) = out;
    answer
}

// Does nothing: its contract is that the judge over frames filled from these pairs answers the same.
#[tactic(auto, using(crate::proofs::SameLaws::same_judge))]
pub fn same_law()
    ensures { SameJudge }
{}

// Does nothing: its contract is that fields which are not given are ignored.
#[tactic(auto, using(crate::proofs::SameLaws::ignored_fields))]
pub fn ignored_law()
    ensures { IgnoredFields }
{}

// Does nothing: its contract is that a frame filled from a slot keeps what stood in the fields which are not given.
#[tactic(auto, using(crate::proofs::PartLaws::nothing_given, crate::proofs::PartLaws::checksum_alone, crate::proofs::PartLaws::numbers_alone))]
pub fn kept_law()
    ensures nothing { NothingGiven }
    ensures checksum { ChecksumGiven }
    ensures numbers { NumbersGiven }
{}
