// The winner's payload, as a part of slot A's or slot B's bytes, beside the whole report of the pair.
ghost use Rattle.std.specs.Prelude.{◌≡◌};
ghost use Rattle.pair.specs.Pair.{winner_info};
ghost use Rattle.pair.specs.Numbers.{report_numbers};
ghost use Rattle.pair.specs.Winner.{read_pair, WinnerPart, WinnerFits};

use crate::pair::{PairReport, decide};
use slot::slot::{Expect, SlotIndex};
use slot::validate::validate;

// Validates both slots of a pair, and decides. Beside the report stands the winner's payload, a part of its slot's own bytes; without a
// winner the part is empty, at the start of A.
#[tactic(auto, unfolding(crate::specs::Winner::read_pair))]
pub fn winner_payload<'a>(
    a: &'a [u8],
    expect_a: &Expect,
    b: &'a [u8],
    expect_b: &Expect,
) -> (PairReport, &'a [u8])
    ensures report { result.0 ≡ read_pair a.now expect_a.now b.now expect_b.now }
    ensures numbers { report_numbers result.0 ≡ report_numbers (read_pair a.now expect_a.now b.now expect_b.now) }
    ensures part { WinnerPart (winner_info (read_pair a.now expect_a.now b.now expect_b.now)) a.entry b.entry result.1 }
{
    let report = decide(validate(a, expect_a), validate(b, expect_b));
    let payload = match report.winner_info() {
        Some((SlotIndex::A, info)) => info.payload(a),
        Some((SlotIndex::B, info)) => info.payload(b),
        None => &a[..0],
    };
    (report, payload)
}

// Does nothing: its contract is that a winner's payload lies within its slot.
#[tactic(auto, using(crate::proofs::WinnerLaws::winner_fits))]
pub fn fits_law()
    ensures { WinnerFits }
{}
