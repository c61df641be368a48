// The plan of a pair's next write.
ghost use Rattle.std.specs.Prelude.{◌≡◌, slice_get, option_map};
ghost use Rattle.judge.specs.Frames.{frames as frames_of};
ghost use Rattle.pair.specs.Pair.{next_write};
ghost use Rattle.plan.specs.Plan.{followed, plan_at, plan_next, plan_write};

use crate::error::PlanError;
use crate::{frame, numbers};
use judge::frames::{FRAME, operator, refusal};
use pair::pair::PairReport;
use slot::slot::SlotIndex;

// Which slot is written, and what is written of the store's history.
#[derive(Clone, Copy)]
pub struct Plan {
    pub index: SlotIndex,
    pub generation: u64,
    pub prev_header_crc32c: u32,
    pub meta_seq: u64,
}

// A write to the slot at `index`, with the number after `most`, of the record that follows the pair's winner; or of the pair's first one.
pub(crate) fn plan_at(index: SlotIndex, report: &PairReport, most: u64) -> Result<Plan, PlanError>
    ensures { result ≡ plan_at index (followed report.now) most }
{
    let (generation, prev_header_crc32c) = match report.winner_info() {
        Some((_, winner)) => (winner.generation, winner.header_crc32c),
        None => (0, 0),
    };
    Ok(Plan {
        index,
        generation: numbers::after(generation)?,
        prev_header_crc32c,
        meta_seq: numbers::after(most)?,
    })
}

// Of the pair with this report; None where it must not be written.
fn plan_next(report: &PairReport, most: u64) -> Result<Option<Plan>, PlanError>
    ensures { result ≡ plan_next (next_write report.now) (followed report.now) most }
{
    let Some(index) = report.next_write() else {
        return Ok(None);
    };
    Ok(Some(plan_at(index, report, most)?))
}

// The frame of the pair at `pair`. Frames and place are two parameters here and of each plan: a struct would be made for the one call.
pub(crate) fn frame_at(frames: &[u8], pair: usize) -> Option<&[u8; FRAME]>
    ensures { option_map (λ f. f.now) result ≡ slice_get (frames_of frames.now) pair }
{
    let (pairs, _) = frames.as_chunks::<FRAME>();
    pairs.get(pair)
}

// Plans the next write of the pair at `pair`, with the number after the highest of its operator; None where the pair must not be written.
#[inline(always)]
#[tactic(auto, unfolding(crate::specs::Plan::plan_write))]
pub fn plan_write(frames: &[u8], pair: usize) -> Result<Option<Plan>, PlanError>
    ensures { result ≡ plan_write frames.now pair }
{
    let Some(frame) = frame_at(frames, pair) else {
        return Err(refusal(frames, 0).map_or(PlanError::NoPair, PlanError::Frames));
    };
    let most = numbers::highest_number(frames, operator(frame))?;
    plan_next(&frame::report(frame), most)
}
