// The winner's payload for C hosts: its slot, and where it lies in that slot's bytes.
ghost use Rattle.std.specs.Prelude.{◌≡◌, List, ℕ, length};
ghost use Rattle.std.specs.Borrow.{Bor};
ghost use Rattle.pair.specs.Pair.{winner_info};
ghost use Rattle.pair.specs.Winner.{WinnerPart};
ghost use Rattle.store_io.specs.Arguments.{expect_of};
ghost use Rattle.store_io.specs.Winners.{pair_of, winner_answer, PlacedAt, ReadsBack};

use crate::arguments::expect_of;
use pair::winner::winner_payload;

// Validates both slots of a pair and names the winner's payload. What the theorems call read back is the bytes at the slot, start and length
// that it answers.
#[unsafe(no_mangle)]
pub extern "C" fn sio_winner_payload<'a>(
    a: &'a [u8],
    b: &'a [u8],
    volume0: u64,
    volume1: u64,
    object_id: u64,
    a_offset: u64,
    b_offset: u64,
    log2_slot_size: u8,
    format_major: u16,
    numbered: u32,
    values_a: &mut [u64; 9],
    values_b: &mut [u64; 9],
    report: &mut [u8; 7],
    start: &mut usize,
    payload_len: &mut usize,
) -> u32
    ensures found { (result, values_a.new, values_b.new, report.new, start.new, payload_len.new) ≡ winner_answer (length a.now) (length b.now) (pair_of a.now b.now volume0 volume1 object_id a_offset b_offset log2_slot_size format_major numbered) }
    ensures place { (part : Bor (List ℕ)) → WinnerPart (winner_info (pair_of a.now b.now volume0 volume1 object_id a_offset b_offset log2_slot_size format_major numbered)) a.entry b.entry part → PlacedAt result start.new payload_len.new a.entry b.entry part }
    ensures read_back { ReadsBack result start.new payload_len.new a.now (expect_of volume0 volume1 object_id a_offset 0 log2_slot_size format_major numbered) b.now (expect_of volume0 volume1 object_id b_offset 1 log2_slot_size format_major numbered) }
{
    let expect_a = expect_of(
        volume0,
        volume1,
        object_id,
        a_offset,
        0,
        log2_slot_size,
        format_major,
        numbered,
    );
    let expect_b = expect_of(
        volume0,
        volume1,
        object_id,
        b_offset,
        1,
        log2_slot_size,
        format_major,
        numbered,
    );
    let (read, payload) = winner_payload(a, &expect_a, b, &expect_b);
    *values_a = read.a.values();
    *values_b = read.b.values();
    *report = read.numbers();
    let Some((index, info)) = read.winner_info() else {
        *start = 0;
        *payload_len = 0;
        return 0;
    };
    *start = usize::from(info.payload_start);
    *payload_len = payload.len();
    u32::from(index.number())
}
