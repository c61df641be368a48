// The verdicts on slots, pairs and the store, one pair at a time, in two passes. The first gives each pair a verdict and counts what it
// meets; the second applies the rules of the whole store.
//
// A write in flight is healed if it is the only candidate that qualifies. A page's is not healed under a clean mark, nor in a store
// where any pair is not Confirmed; the volume record's is healed unless a pair is refused. One that is not healed is Damage.
ghost use Rattle.std.specs.Prelude.{◌≡◌, ◌<◌};
ghost use Rattle.std.specs.Option.{option_or};
ghost use Rattle.judge.specs.Maxima.{maxima_of, by_maxima};
ghost use Rattle.judge.specs.Verdict.{slot_verdict, winner_beside, no_winner, pair_verdict, in_flight};
ghost use Rattle.judge.specs.Judge.{demoted, demotes, store_rules, writable, pair_heal, HealNames};
ghost use Rattle.judge.specs.Values.{standing_number, standing_from, slot_verdict_number, slot_verdict_from, choice_from, heal_slot, heal_pair, error_number, NumbersBack};
ghost use Rattle.judge.specs.Alike.{OwnersAside, LosersUnread};
ghost use Rattle.judge.specs.Passes.{tallied};
ghost use Rattle.judge.specs.Rules.{ShownRows, FirstPassRows, OppositeRows, NumberRows, OperatorRows, StoreRows, OwnerRows};
ghost use Rattle.judge.specs.FrameRules.{ValueRows, FrameRows, RefusalRows, RecordRows};

use crate::numbers::OperatorMaxima;
use crate::pairs::{Opposite, PairCase};
use slot::numbers::choice_number;
use slot::slot::SlotIndex;

// What became of one slot.
#[derive(Clone, Copy, PartialEq, Eq)]
pub enum SlotVerdict {
    // The pair's current version.
    Winner,
    // The previous version, intact, or a slot never written opposite a first-generation winner.
    Nothing,
    // The winner's predecessor, damaged: reported only.
    OlderDamaged,
    // The one write a crash left torn: the winner stands Confirmed, and a writable open rewrites this slot.
    InFlight,
    // A crash cannot explain it.
    Damage,
}

// A pair's standing.
#[derive(Clone, Copy, PartialEq, Eq)]
pub enum Standing {
    // The winner is the latest committed version.
    Confirmed,
    // The winner may be missing later commits.
    Unconfirmed,
    // No usable winner.
    Lost,
    // Written by a newer format, or with a must-understand flag this version does not know: the open fails.
    Refused,
}

// The verdict on one pair.
#[derive(Clone, Copy)]
pub struct PairVerdict {
    pub standing: Standing,
    // None where the pair is Lost or Refused.
    pub winner: Option<SlotIndex>,
    pub a: SlotVerdict,
    pub b: SlotVerdict,
}

// What the first pass counts.
#[derive(Clone, Copy, Default)]
pub struct Tally {
    // Candidates that qualify.
    pub candidates: usize,
    // Some page had a candidate, qualifying or not.
    pub page_had_candidate: bool,
    // Some pair is not Confirmed.
    pub troubled: bool,
    pub refused: bool,
}

// The rules of the whole store, for the second pass.
#[derive(Clone, Copy)]
pub struct StoreRules {
    // The clean mark holds: every candidate is judged as damage.
    pub clean: bool,
    pub volume_demote: bool,
    pub page_demote: bool,
}

// The verdict on the whole store.
#[derive(Clone, Copy)]
pub struct Judgement {
    // The torn write to heal: its pair and its slot.
    pub heal: Option<(usize, SlotIndex)>,
    // A writable open may proceed.
    pub writable: bool,
    // The clean mark was applied.
    pub clean: bool,
    // Some pair is refused: the open fails.
    pub refused: bool,
    // Two winners, any two, have different owner generations.
    pub owners_differ: bool,
}

/// The most pairs of a judgement.
pub const MOST_PAIRS: usize = 112;

// Why there is no judgement.
#[derive(Clone, Copy)]
pub enum JudgeError {
    // No pair.
    Empty = 8,
    // Another number of verdicts than of pairs.
    OutputLength = 9,
    // No whole frames, or a value out of range.
    OutOfRange = 10,
    // More pairs than are judged.
    TooManyPairs = 45,
}

// ---- numbers. The way back is a match, since a cast goes from a case to its number alone.

impl SlotVerdict {
    // Its number,
    pub fn as_u8(self) -> u8
        ensures { result ≡ slot_verdict_number self }
    {
        self as u8
    }

    // and what a number stands for.
    pub fn from_u8(n: u8) -> Self
        ensures { result ≡ slot_verdict_from n }
    {
        match n {
            0 => SlotVerdict::Winner,
            1 => SlotVerdict::Nothing,
            2 => SlotVerdict::OlderDamaged,
            3 => SlotVerdict::InFlight,
            _ => SlotVerdict::Damage,
        }
    }
}

impl Standing {
    // Its number,
    pub fn as_u8(self) -> u8
        ensures { result ≡ standing_number self }
    {
        self as u8
    }

    // and what a number stands for.
    pub fn from_u8(n: u8) -> Self
        ensures { result ≡ standing_from n }
    {
        match n {
            0 => Standing::Confirmed,
            1 => Standing::Unconfirmed,
            2 => Standing::Lost,
            _ => Standing::Refused,
        }
    }
}

// What the number of a choice of slots stands for: a pair's winner, or its slot to heal.
pub fn choice_from(n: u8) -> Option<SlotIndex>
    ensures { result ≡ choice_from n }
{
    match n {
        0 => None,
        1 => Some(SlotIndex::A),
        _ => Some(SlotIndex::B),
    }
}

impl Judgement {
    // The number of the slot to heal, 0 for none,
    pub fn heal_slot(self) -> u8
        ensures { result ≡ heal_slot self.heal }
    {
        choice_number(self.heal.map(|(_, index)| index))
    }

    // and its pair, 0 without a heal.
    pub fn heal_pair(self) -> usize
        ensures { result ≡ heal_pair self.heal }
    {
        self.heal.map_or(0, |(pair, _)| pair)
    }
}

impl JudgeError {
    // Its number.
    pub fn number(self) -> u8
        ensures { result ≡ error_number self }
    {
        self as u8
    }
}

// ---- the first pass

impl Opposite {
    fn verdict(self, maxima: &OperatorMaxima, operator: u8) -> SlotVerdict
        ensures { result ≡ slot_verdict (by_maxima (maxima_of maxima.now operator) SlotIndex.A) self }
    {
        match self {
            Opposite::Nothing => SlotVerdict::Nothing,
            Opposite::OlderDamaged => SlotVerdict::OlderDamaged,
            Opposite::Candidate(seq) if maxima.of(operator).qualifies(seq) => SlotVerdict::InFlight,
            _ => SlotVerdict::Damage,
        }
    }
}

impl PairVerdict {
    pub(crate) fn no_winner(standing: Standing) -> Self
        ensures { result ≡ no_winner standing }
    {
        PairVerdict {
            standing,
            winner: None,
            a: SlotVerdict::Damage,
            b: SlotVerdict::Damage,
        }
    }

    // The winner at `index`, beside a slot of this verdict.
    fn winner_beside(index: SlotIndex, other: SlotVerdict) -> Self
        ensures { result ≡ winner_beside index other }
    {
        let standing = if other == SlotVerdict::Damage {
            Standing::Unconfirmed
        } else {
            Standing::Confirmed
        };
        let (a, b) = match index {
            SlotIndex::A => (SlotVerdict::Winner, other),
            SlotIndex::B => (other, SlotVerdict::Winner),
        };
        PairVerdict {
            standing,
            winner: Some(index),
            a,
            b,
        }
    }

    // After the first pass, of an operator's pair; provisional where a slot is in flight.
    pub(crate) fn first(maxima: &OperatorMaxima, operator: u8, case: PairCase) -> Self
        ensures { result ≡ pair_verdict (by_maxima (maxima_of maxima.now operator)) case }
    {
        match case {
            PairCase::Refused => PairVerdict::no_winner(Standing::Refused),
            PairCase::Lost => PairVerdict::no_winner(Standing::Lost),
            PairCase::Won(index, other) => PairVerdict::winner_beside(
                index,
                other.verdict(maxima, operator),
            ),
        }
    }

    // Whether a slot of the pair is the write in flight.
    pub(crate) fn in_flight(self) -> bool
        ensures { result ≡ in_flight self }
    {
        self.a == SlotVerdict::InFlight || self.b == SlotVerdict::InFlight
    }
}

impl Tally {
    // One more pair; `volume`: it is the volume record, which has a rule of its own. A closure for each would hold the same test.
    pub(crate) fn count(&mut self, volume: bool, case: PairCase, v: PairVerdict)
        requires { self.old.candidates < usize.MAX }
        ensures { self.new ≡ tallied self.old volume case v }
    {
        if v.in_flight() {
            self.candidates += 1;
        }
        self.page_had_candidate |= !volume && case.has_candidate();
        self.troubled |= v.standing != Standing::Confirmed;
        self.refused |= v.standing == Standing::Refused;
    }

    // The rules of the store, beside the volume record's verdict. The clean mark counts if that is Confirmed and has no candidate.
    pub(crate) fn rules(self, clean: bool, volume: PairVerdict) -> StoreRules
        ensures { result ≡ store_rules clean self volume }
    {
        let clean = clean && volume.standing == Standing::Confirmed && !volume.in_flight();
        StoreRules {
            clean,
            volume_demote: self.candidates != 1 || self.refused,
            page_demote: clean || self.candidates != 1 || self.troubled,
        }
    }

    // Whether the store may be written, by the volume record's standing after each pass.
    pub(crate) fn writable(self, first: Standing, last: Standing) -> bool
        ensures { result ≡ writable self.refused self.page_had_candidate first last }
    {
        !self.refused
            && !matches!(first, Standing::Lost | Standing::Refused)
            && (last != Standing::Unconfirmed || !self.page_had_candidate)
    }
}

// ---- the second pass

impl StoreRules {
    // Whether a write in flight is demoted to damage; `volume`: in the volume record, which has a rule of its own. A closure for each
    // would hold the same test.
    pub(crate) fn demotes(self, volume: bool) -> bool
        ensures { result ≡ demotes self volume }
    {
        if volume {
            self.volume_demote
        } else {
            self.page_demote
        }
    }
}

impl PairVerdict {
    // Where it is demoted, a slot in flight becomes Damage, and its pair Unconfirmed.
    pub(crate) fn demoted_if(self, demote: bool) -> Self
        ensures { result ≡ demoted demote self }
    {
        let slot = |v: SlotVerdict| if v == SlotVerdict::InFlight {
            SlotVerdict::Damage
        } else {
            v
        };
        if demote && self.in_flight() {
            PairVerdict {
                standing: Standing::Unconfirmed,
                winner: self.winner,
                a: slot(self.a),
                b: slot(self.b),
            }
        } else {
            self
        }
    }

    // The slot in flight of the pair with this number, or what was found before.
    pub(crate) fn heal_or(
        self,
        pair: usize,
        before: Option<(usize, SlotIndex)>,
    ) -> Option<(usize, SlotIndex)>
        ensures { result ≡ option_or (pair_heal pair self) before }
    {
        if self.b == SlotVerdict::InFlight {
            Some((pair, SlotIndex::B))
        } else if self.a == SlotVerdict::InFlight {
            Some((pair, SlotIndex::A))
        } else {
            before
        }
    }
}

// Does nothing: its contract is that a slot is named for healing if and only if its last verdict is InFlight.
#[tactic(auto, using(crate::proofs::HealLaws::heal_names))]
pub fn heal_law()
    ensures { HealNames }
{}

// Does nothing: its contract is that owner generations change no verdict, and of the judgement nothing but whether the winners' differ; and
// that those of slots that are no winners change nothing at all.
#[tactic(auto, using(crate::proofs::AlikeLaws::owners_aside, crate::proofs::AlikeLaws::losers_unread))]
pub fn owners_law()
    ensures aside { OwnersAside }
    ensures losers { LosersUnread }
{}

// Does nothing: its contract is that each number of a standing, a choice, a slot's verdict and a heal is read back as what it is of.
#[tactic(auto, using(crate::specs::ReadBack::numbers_back))]
pub fn numbers_law()
    ensures { NumbersBack }
{}

/// Does nothing: its contract is the rules by rows, on both sides of each bound: what a slot shows, the verdicts on pairs and on the store, the
/// owners, and the judge over frames and over records with what it refuses.
#[tactic(auto, using(crate::proofs::RulesLaws::shown_rows, crate::proofs::RulesLaws::first_pass_rows, crate::proofs::RulesLaws::opposite_rows, crate::proofs::RulesLaws::number_rows, crate::proofs::RulesLaws::operator_rows, crate::proofs::RulesLaws::store_rows, crate::proofs::RulesLaws::owner_rows, crate::proofs::RulesLaws::value_rows, crate::proofs::RulesLaws::frame_rows, crate::proofs::RulesLaws::refusal_rows, crate::proofs::RulesLaws::record_rows))]
pub fn rules_table()
    ensures shown { ShownRows }
    ensures first_pass { FirstPassRows }
    ensures opposite { OppositeRows }
    ensures numbers { NumberRows }
    ensures operators { OperatorRows }
    ensures store { StoreRows }
    ensures owners { OwnerRows }
    ensures values { ValueRows }
    ensures frames { FrameRows }
    ensures refusals { RefusalRows }
    ensures records { RecordRows }
{}
