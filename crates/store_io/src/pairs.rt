// Pairs for C hosts.
ghost use Rattle.std.specs.Prelude.{◌≡◌};
ghost use Rattle.slot.specs.Numbers.{status_of};
ghost use Rattle.store_io.specs.Arguments.{valid_of};
ghost use Rattle.store_io.specs.Pairs.{report_bytes, decide_answer};

use crate::arguments::valid_of;
use judge::verdict::JudgeError;
use pair::pair::{PairReport, decide};
use slot::slot::SlotStatus;

// The current version of a pair.
#[unsafe(no_mangle)]
pub extern "C" fn sio_decide(
    a_status: u32,
    a_generation: u64,
    a_header_crc32c: u32,
    a_prev_header_crc32c: u32,
    b_status: u32,
    b_generation: u64,
    b_header_crc32c: u32,
    b_prev_header_crc32c: u32,
    report: &mut [u8; 5],
) -> u32
    ensures { (result, report.new) ≡ decide_answer report.old (status_of a_status (valid_of a_generation a_header_crc32c a_prev_header_crc32c)) (status_of b_status (valid_of b_generation b_header_crc32c b_prev_header_crc32c)) }
{
    let a = valid_of(a_generation, a_header_crc32c, a_prev_header_crc32c);
    let b = valid_of(b_generation, b_header_crc32c, b_prev_header_crc32c);
    let (Some(a), Some(b)) = (
        SlotStatus::from_code(a_status, a),
        SlotStatus::from_code(b_status, b),
    ) else {
        return u32::from(JudgeError::OutOfRange.number());
    };
    *report = report_bytes(&decide(a, b));
    0
}

// The winner's standing and slot, gap, chain break, and the slot of the next write.
// The C interface has a row of numbers for a record.
#[tactic(auto, unfolding(crate::specs::Pairs::report_bytes, pair::specs::Numbers::report_numbers))]
pub fn report_bytes(report: &PairReport) -> [u8; 5]
    ensures { result ≡ report_bytes report.now }
{
    let [_, _, standing, winner, gap, broken, next] = report.numbers();
    [standing, winner, gap, broken, next]
}
