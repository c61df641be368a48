// The next write of a pair, planned and encoded.
ghost use Rattle.std.specs.Prelude.{◌≡◌};
ghost use Rattle.judge.specs.Verdict.{by_index};
ghost use Rattle.plan.specs.Next.{fields_of, next_write};
ghost use Rattle.plan.specs.Promise.{SurvivesCuts};

use crate::error::PlanError;
use crate::write::{Plan, plan_write};
use slot::encode::encode;
use slot::slot::{Expect, FORMAT_2, SlotFields, SlotIndex};

// What the planned write puts into the header of its slot, where the pair's slots are read with `a` and `b`.
fn fields_of(
    plan: Plan,
    a: &Expect,
    b: &Expect,
    owner_generation: u64,
    compat_flags: u32,
) -> SlotFields
    ensures { result ≡ fields_of plan (by_index plan.index a.now b.now) owner_generation compat_flags }
{
    let e = match plan.index {
        SlotIndex::A => a,
        SlotIndex::B => b,
    };
    SlotFields {
        volume_uuid: e.volume_uuid,
        object_id: e.object_id,
        generation: plan.generation,
        owner_generation,
        slot_offset: e.slot_offset,
        slot_index: e.slot_index,
        log2_slot_size: e.log2_slot_size,
        prev_header_crc32c: plan.prev_header_crc32c,
        format_major: FORMAT_2,
        meta_seq: plan.meta_seq,
        compat_flags,
    }
}

// Plans the next write of the pair at `pair`, whose slots are read with `a` and `b`, and encodes it in format 2 into `slot`. Answers the
// plan and the header's checksum; None where nothing is planned. Where a power cut ends the write of these bytes to the planned slot, in
// ascending order or by sectors, the store survives.
#[tactic(auto, unfolding(crate::specs::Next::next_write))]
pub fn next_write(
    frames: &[u8],
    pair: usize,
    a: &Expect,
    b: &Expect,
    owner_generation: u64,
    compat_flags: u32,
    payload: &[u8],
    slot: &mut [u8],
) -> Result<Option<(Plan, u32)>, PlanError>
    ensures written { (slot.new, result) ≡ next_write frames.now pair a.now b.now owner_generation compat_flags payload.now slot.old }
    ensures survives { SurvivesCuts frames.now pair a.now b.now owner_generation compat_flags payload.now slot.old slot.new result }
{
    let Some(plan) = plan_write(frames, pair)? else {
        return Ok(None);
    };
    match encode(
        slot,
        &fields_of(plan, a, b, owner_generation, compat_flags),
        payload,
    ) {
        Ok(crc) => Ok(Some((plan, crc))),
        Err(error) => Err(PlanError::Encode(error)),
    }
}
