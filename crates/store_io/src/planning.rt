// The next writes for C hosts: what a correct write is.
//
// The C interface has one function an answer: each is written out, with frames and a pair's place side by side.
ghost use Rattle.std.specs.Prelude.{◌≡◌};
ghost use Rattle.plan.specs.Error.{error_number};
ghost use Rattle.plan.specs.Numbers.{next_number, heal_number};
ghost use Rattle.plan.specs.Plan.{plan_write};
ghost use Rattle.plan.specs.Heal.{plan_heal};
ghost use Rattle.plan.specs.Next.{next_write};
ghost use Rattle.plan.specs.Promise.{SurvivesCuts};
ghost use Rattle.store_io.specs.Host.{answer};
ghost use Rattle.store_io.specs.Planning.{plan_values, heal_values, numbered_slot, next_found, next_answer};

use crate::answers::give;
use crate::arguments::expect_of;
use plan::error::PlanError;
use plan::heal::plan_heal;
use plan::next::next_write;
use plan::numbers::{heal_number, next_number};
use plan::write::{Plan, plan_write};
use slot::slot::Expect;

// The number of an operator's next write.
#[unsafe(no_mangle)]
pub extern "C" fn sio_next_number(frames: &[u8], operator_id: u8, number: &mut u64) -> u32
    ensures { (result, number.new) ≡ answer error_number (λ n. n) number.old (next_number frames.now operator_id) }
{
    give(next_number(frames, operator_id), number)
}

// One above the numbers of an operator's winners.
#[unsafe(no_mangle)]
pub extern "C" fn sio_heal_number(frames: &[u8], operator_id: u8, number: &mut u64) -> u32
    ensures { (result, number.new) ≡ answer error_number (λ n. n) number.old (heal_number frames.now operator_id) }
{
    give(heal_number(frames, operator_id), number)
}

// Slot, generation, previous checksum and number; zeros without a plan.
// The C interface has a row of numbers for a record.
pub fn plan_values(plan: Option<Plan>) -> [u64; 4]
    ensures { result ≡ plan_values plan }
{
    match plan {
        Some(plan) => [
            u64::from(plan.index.number()),
            plan.generation,
            u64::from(plan.prev_header_crc32c),
            plan.meta_seq,
        ],
        None => [0; 4],
    }
}

// The pair before them.
pub fn heal_values(heal: Option<(usize, Plan)>) -> [u64; 5]
    ensures { result ≡ heal_values heal }
{
    match heal {
        Some((pair, plan)) => [
            pair as u64,
            u64::from(plan.index.number()),
            plan.generation,
            u64::from(plan.prev_header_crc32c),
            plan.meta_seq,
        ],
        None => [0; 5],
    }
}

// The plan of a pair's next write.
#[unsafe(no_mangle)]
pub extern "C" fn sio_plan_write(frames: &[u8], pair: usize, plan: &mut [u64; 4]) -> u32
    ensures { (result, plan.new) ≡ answer error_number plan_values plan.old (plan_write frames.now pair) }
{
    give(plan_write(frames, pair).map(plan_values), plan)
}

// The plan of the write that heals.
#[unsafe(no_mangle)]
pub extern "C" fn sio_plan_heal(frames: &[u8], clean: u8, plan: &mut [u64; 5]) -> u32
    ensures { (result, plan.new) ≡ answer error_number heal_values plan.old (plan_heal frames.now clean) }
{
    give(plan_heal(frames, clean).map(heal_values), plan)
}

// A slot that is read as numbered in format 2.
fn numbered_slot(
    volume0: u64,
    volume1: u64,
    object_id: u64,
    slot_offset: u64,
    index: u32,
    log2_slot_size: u8,
) -> Expect
    ensures { result ≡ numbered_slot volume0 volume1 object_id slot_offset index log2_slot_size }
{
    expect_of(
        volume0,
        volume1,
        object_id,
        slot_offset,
        index,
        log2_slot_size,
        2,
        1,
    )
}

// Slots A and B of a pair.
fn numbered_pair(
    volume0: u64,
    volume1: u64,
    object_id: u64,
    a_offset: u64,
    b_offset: u64,
    log2_slot_size: u8,
) -> (Expect, Expect)
    ensures a { result.0 ≡ numbered_slot volume0 volume1 object_id a_offset 0 log2_slot_size }
    ensures b { result.1 ≡ numbered_slot volume0 volume1 object_id b_offset 1 log2_slot_size }
{
    let a = numbered_slot(volume0, volume1, object_id, a_offset, 0, log2_slot_size);
    let b = numbered_slot(volume0, volume1, object_id, b_offset, 1, log2_slot_size);
    (a, b)
}

// Hands over a plan and the header's checksum.
fn give_write(
    made: Result<Option<(Plan, u32)>, PlanError>,
    plan: &mut [u64; 4],
    header_crc32c: &mut u32,
) -> u32
    ensures { (result, plan.new, header_crc32c.new) ≡ next_found plan.old header_crc32c.old made }
{
    match made {
        Ok(Some((next, crc))) => {
            *plan = plan_values(Some(next));
            *header_crc32c = crc;
            0
        }
        Ok(None) => {
            *plan = [0; 4];
            0
        }
        Err(error) => u32::from(error.number()),
    }
}

// The next write of a pair, planned and encoded.
#[unsafe(no_mangle)]
pub extern "C" fn sio_next_write(
    frames: &[u8],
    pair: usize,
    volume0: u64,
    volume1: u64,
    object_id: u64,
    a_offset: u64,
    b_offset: u64,
    log2_slot_size: u8,
    owner_generation: u64,
    compat_flags: u32,
    payload: &[u8],
    slot: &mut [u8],
    plan: &mut [u64; 4],
    header_crc32c: &mut u32,
) -> u32
    ensures found { (result, plan.new, header_crc32c.new, slot.new) ≡ next_answer plan.old header_crc32c.old (next_write frames.now pair (numbered_slot volume0 volume1 object_id a_offset 0 log2_slot_size) (numbered_slot volume0 volume1 object_id b_offset 1 log2_slot_size) owner_generation compat_flags payload.now slot.old) }
    ensures survives { SurvivesCuts frames.now pair (numbered_slot volume0 volume1 object_id a_offset 0 log2_slot_size) (numbered_slot volume0 volume1 object_id b_offset 1 log2_slot_size) owner_generation compat_flags payload.now slot.old slot.new (next_write frames.now pair (numbered_slot volume0 volume1 object_id a_offset 0 log2_slot_size) (numbered_slot volume0 volume1 object_id b_offset 1 log2_slot_size) owner_generation compat_flags payload.now slot.old).1 }
{
    let (a, b) = numbered_pair(
        volume0,
        volume1,
        object_id,
        a_offset,
        b_offset,
        log2_slot_size,
    );
    let made = next_write(
        frames,
        pair,
        &a,
        &b,
        owner_generation,
        compat_flags,
        payload,
        slot,
    );
    give_write(made, plan, header_crc32c)
}
