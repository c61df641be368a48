// The plan of the write that heals.
ghost use Rattle.std.specs.Prelude.{◌≡◌};
ghost use Rattle.judge.specs.Pairs.{numbered};
ghost use Rattle.judge.specs.Numbers.{number};
ghost use Rattle.judge.specs.Maxima.{others_max};
ghost use Rattle.judge.specs.Verdict.{by_index};
ghost use Rattle.judge.specs.Frames.{pair_from};
ghost use Rattle.plan.specs.Pairs.{frame_report};
ghost use Rattle.plan.specs.Plan.{followed, plan_at};
ghost use Rattle.plan.specs.Heal.{with_pair, plan_heal};

use crate::error::PlanError;
use crate::frame;
use crate::write::{Plan, frame_at, plan_at};
use judge::frames::{FRAME, heal, operator, shown, two_highest};
use judge::numbers::Maxima;
use slot::slot::SlotIndex;

// A write to the slot at `index` of the pair with this frame, with the number after the highest of its operator's other slots.
fn plan_named(
    pair: usize,
    frame: &[u8; FRAME],
    index: SlotIndex,
    m: Maxima,
) -> Result<Option<(usize, Plan)>, PlanError>
    ensures { result ≡ with_pair pair (plan_at index (followed (frame_report frame.now)) (others_max m (number (numbered (by_index index (pair_from frame.now).a (pair_from frame.now).b))))) }
{
    let named = shown(frame).slot(index);
    let plan = plan_at(index, &frame::report(frame), m.others(named.number()))?;
    Ok(Some((pair, plan)))
}

// Plans the write of the slot that the judge names, and tells its pair; None where it names none.
#[tactic(auto, unfolding(crate::specs::Heal::plan_heal))]
pub fn plan_heal(frames: &[u8], clean: u8) -> Result<Option<(usize, Plan)>, PlanError>
    ensures { result ≡ plan_heal frames.now clean }
{
    let Some((pair, index)) = heal(frames, clean)? else {
        return Ok(None);
    };
    let Some(frame) = frame_at(frames, pair) else {
        return Err(PlanError::NoPair);
    };
    plan_named(pair, frame, index, two_highest(frames, operator(frame)))
}
