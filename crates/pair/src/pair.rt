// Choosing the current version of an A/B slot pair.
//
// Each update of an object writes the slot that does not hold the current version, so after any crash at least one slot still holds a
// complete version. `decide` picks it and says how sure it is, without ever rewriting either slot.
//
// The winner is confirmed when the other slot is explained by an ordinary history: it is blank (never written), torn (a header or payload
// checksum that fails, which a crash during the latest write produces), or an older valid version. It is unconfirmed when the other slot
// cannot be read or holds what an ordinary history never produces there (another volume's or object's slot, a misdirected slot, bytes that
// are no slot, or impossible fields): the newer version may have been destroyed, so the caller must decide whether to trust the survivor.
//
// Two valid slots of one generation are a fork (two writers, or a replayed write), and no winner is chosen. A slot written by a newer
// format makes the pair refused: this version neither reads nor overwrites it.
ghost use Rattle.std.specs.Prelude.{◌≡◌};
ghost use Rattle.slot.specs.Numbers.{choice_number};
ghost use Rattle.pair.specs.Pair.{refused, explains_survivor, survivor, decide, status, winner_info, next_write};
ghost use Rattle.pair.specs.Numbers.{report_numbers, info_numbers, winner_number, winner_slot};
ghost use Rattle.pair.specs.Table.{BesideValid, NoneValid, TwoValid, WinnerNumbers};

use slot::numbers::choice_number;
use slot::slot::{SlotIndex, SlotInfo, SlotStatus};

// The chosen version of a pair, if any.
#[derive(Clone, Copy)]
pub enum Winner {
    // Both slots are blank: the object was never written.
    Empty,
    // The slot holds the current version and the other slot is explained.
    Confirmed(SlotIndex),
    // The slot holds the newest readable version, but a newer one may have existed in the other slot.
    Unconfirmed(SlotIndex),
    // Both slots are valid with the same generation.
    Fork,
    // A slot uses a newer format or unknown incompatible features.
    Refused,
    // Neither slot holds a valid version and they are not both blank.
    Lost,
}

impl Winner {
    // The number of a standing: 0 to 3 as of a verdict, 4 Empty, 5 Fork. By a `match`, as `slot`, since a cast numbers no case that holds a
    // slot; not one function with a verdict's number, since a verdict has four cases and none of them holds one.
    pub fn number(self) -> u8
        ensures { result ≡ winner_number self }
    {
        match self {
            Winner::Confirmed(_) => 0,
            Winner::Unconfirmed(_) => 1,
            Winner::Lost => 2,
            Winner::Refused => 3,
            Winner::Empty => 4,
            Winner::Fork => 5,
        }
    }

    // The winner: 0 none, 1 A, 2 B.
    pub fn slot(self) -> u8
        ensures { result ≡ winner_slot self }
    {
        match self {
            Winner::Confirmed(index) | Winner::Unconfirmed(index) => index.number(),
            Winner::Lost | Winner::Refused | Winner::Empty | Winner::Fork => 0,
        }
    }
}

// Both slot statuses, the decision, and the anomalies found.
#[derive(Clone, Copy)]
pub struct PairReport {
    pub a: SlotStatus,
    pub b: SlotStatus,
    pub winner: Winner,
    // Both slots are valid but their generations are not consecutive: an update was lost or a slot was restored from elsewhere.
    pub generation_gap: bool,
    // The winner does not record the other slot's header checksum as its predecessor although their generations are consecutive.
    pub chain_break: bool,
}

impl PairReport {
    // Both codes, the winner's number and slot, gap, chain break, and the slot of the next write: the row of numbers that C gets.
    #[tactic(auto, unfolding(crate::specs::Numbers::report_numbers))]
    pub fn numbers(self) -> [u8; 7]
        ensures { result ≡ report_numbers self }
    {
        [
            self.a.code(),
            self.b.code(),
            self.winner.number(),
            self.winner.slot(),
            u8::from(self.generation_gap),
            u8::from(self.chain_break),
            choice_number(self.next_write()),
        ]
    }

    // `numbers`, here and below, says the same in the numbers that C gets, a promise on which callers may rest.

    // The winning slot's facts, if a winner was chosen.
    pub fn winner_info(self) -> Option<(SlotIndex, SlotInfo)>
        ensures value { result ≡ winner_info self }
        ensures numbers { info_numbers result ≡ info_numbers (winner_info self) }
    {
        let index = match self.winner {
            Winner::Confirmed(index) | Winner::Unconfirmed(index) => index,
            _ => return None,
        };
        match self.status(index) {
            SlotStatus::Valid(info) => Some((index, info)),
            _ => None,
        }
    }

    // The status of one slot.
    pub fn status(self, index: SlotIndex) -> SlotStatus
        ensures { result ≡ status self index }
    {
        match index {
            SlotIndex::A => self.a,
            SlotIndex::B => self.b,
        }
    }

    // Which slot the next update must write: the one not holding the winner. `None` when the pair must not be written.
    pub fn next_write(self) -> Option<SlotIndex>
        ensures value { result ≡ next_write self }
        ensures number { choice_number result ≡ choice_number (next_write self) }
    {
        match self.winner {
            Winner::Empty => Some(SlotIndex::A),
            Winner::Confirmed(index) | Winner::Unconfirmed(index) => Some(index.other()),
            Winner::Fork | Winner::Refused | Winner::Lost => None,
        }
    }
}

// How the other slot of a single valid survivor is explained.
fn explains_survivor(other: &SlotStatus) -> bool
    ensures { result ≡ explains_survivor other.now }
{
    matches!(
        other,
        SlotStatus::Blank | SlotStatus::BadHeaderCrc | SlotStatus::BadPayloadCrc
    )
}

fn refused(s: &SlotStatus) -> bool
    ensures { result ≡ refused s.now }
{
    matches!(
        s,
        SlotStatus::UnsupportedVersion { .. } | SlotStatus::Incompatible { .. }
    )
}

fn survivor(index: SlotIndex, other: &SlotStatus) -> Winner
    ensures { result ≡ survivor index other.now }
{
    if explains_survivor(other) {
        Winner::Confirmed(index)
    } else {
        Winner::Unconfirmed(index)
    }
}

// Decides the winner of a pair from the two validated slot statuses.
#[tactic(auto, unfolding(crate::specs::Pair::decide))]
pub fn decide(a: SlotStatus, b: SlotStatus) -> PairReport
    ensures value { result ≡ decide a b }
    ensures numbers { report_numbers result ≡ report_numbers (decide a b) }
{
    let mut report = PairReport {
        a,
        b,
        winner: Winner::Lost,
        generation_gap: false,
        chain_break: false,
    };
    if refused(&a) || refused(&b) {
        report.winner = Winner::Refused;
        return report;
    }
    report.winner = match (a, b) {
        (SlotStatus::Blank, SlotStatus::Blank) => Winner::Empty,
        (SlotStatus::Valid(ia), SlotStatus::Valid(ib)) => {
            if ia.generation == ib.generation {
                Winner::Fork
            } else {
                let (index, newer, older) = if ia.generation > ib.generation {
                    (SlotIndex::A, ia, ib)
                } else {
                    (SlotIndex::B, ib, ia)
                };
                let consecutive = newer.generation - older.generation == 1;
                report.generation_gap = !consecutive;
                report.chain_break = consecutive && newer.prev_header_crc32c != older.header_crc32c;
                Winner::Confirmed(index)
            }
        }
        (SlotStatus::Valid(_), other) => survivor(SlotIndex::A, &other),
        (other, SlotStatus::Valid(_)) => survivor(SlotIndex::B, &other),
        _ => Winner::Lost,
    };
    report
}

// What `decide` chooses, and which slot is written next, by the numbers of the statuses.
#[tactic(auto, unfolding(crate::specs::Pair::decide, crate::specs::Numbers::report_numbers))]
pub fn decide_table()
    ensures beside_valid { BesideValid }
    ensures none_valid { NoneValid }
    ensures two_valid { TwoValid }
    ensures winners { WinnerNumbers }
{}
