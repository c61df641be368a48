// The numbers of the writes to come, of each operator.
ghost use Rattle.std.specs.Prelude.{◌≡◌, map, Ok};
ghost use Rattle.judge.specs.Numbers.{numbers, highest};
ghost use Rattle.judge.specs.Frames.{pair_from, row, refusal};
ghost use Rattle.plan.specs.Error.{unless_refused};
ghost use Rattle.plan.specs.Numbers.{after, winner_number, winner_for, highest_winner, next_number, heal_number};

use crate::error::PlanError;
use judge::frames::{FRAME, maxima, refusal, shown};
use judge::operators;
use judge::pairs::{Pair, PairCase};

// The highest number of an operator, in frames that the judge does not refuse.
#[tactic(auto, using(crate::proofs::NumberLaws::first_highest))]
pub(crate) fn highest_number(frames: &[u8], operator: u8) -> Result<u64, PlanError>
    ensures { result ≡ unless_refused (refusal frames.now 0) (Ok (highest (numbers operator (row frames.now)))) }
{
    let m = maxima(frames, 0, operator)?;
    Ok(m.first)
}

// One above, if that is a number.
pub(crate) fn after(n: u64) -> Result<u64, PlanError>
    ensures { result ≡ after n }
{
    if n < u64::MAX {
        Ok(n + 1)
    } else {
        Err(PlanError::UsedUp)
    }
}

// The number of a pair's winner, 0 without one.
fn winner_number(p: Pair) -> u64
    ensures { result ≡ winner_number p }
{
    match p.case() {
        PairCase::Won(index, _) => p.slot(index).number(),
        PairCase::Refused | PairCase::Lost => 0,
    }
}

// The same, 0 in a pair of another operator.
fn winner_for(operator: u8, p: Pair) -> u64
    ensures { result ≡ winner_for operator p }
{
    if p.operator == operator {
        winner_number(p)
    } else {
        0
    }
}

fn highest_winner(operator: u8, pairs: &[[u8; FRAME]]) -> u64
    ensures { result ≡ highest_winner operator (map pair_from pairs.now) }
{
    let mut most = 0u64;
    for frame in pairs {
        most = most.max(winner_for(operator, shown(frame)));
    }
    most
}

// The number of an operator's next write: one above the highest of its numbered slots.
#[tactic(auto, unfolding(crate::specs::Numbers::next_number))]
pub fn next_number(frames: &[u8], operator: u8) -> Result<u64, PlanError>
    ensures { result ≡ next_number frames.now operator }
{
    let most = highest_number(frames, operator)?;
    if !operators::is_in_range(false, operator) {
        return Err(PlanError::NoOperator);
    }
    after(most)
}

// One above the numbers of its winners.
#[tactic(auto, unfolding(crate::specs::Numbers::heal_number))]
pub fn heal_number(frames: &[u8], operator: u8) -> Result<u64, PlanError>
    ensures { result ≡ heal_number frames.now operator }
{
    if let Some(error) = refusal(frames, 0) {
        return Err(PlanError::Frames(error));
    }
    if !operators::is_in_range(false, operator) {
        return Err(PlanError::NoOperator);
    }
    let (pairs, _) = frames.as_chunks::<FRAME>();
    after(highest_winner(operator, pairs))
}
