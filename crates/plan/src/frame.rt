// What `decide` says of the two parts of a pair's frame.
ghost use Rattle.std.specs.Prelude.{◌≡◌};
ghost use Rattle.plan.specs.Pairs.{status_or_unread, frame_report};

use judge::frames::{FRAME, parts};
use judge::part::SlotPart;
use pair::pair::{PairReport, decide};
use slot::slot::SlotStatus;

fn status_or_unread(part: SlotPart) -> SlotStatus
    ensures { result ≡ status_or_unread part }
{
    part.status().unwrap_or(SlotStatus::ReadError)
}

pub(crate) fn report(frame: &[u8; FRAME]) -> PairReport
    ensures { result ≡ frame_report frame.now }
{
    let (a, b) = parts(frame);
    decide(status_or_unread(a), status_or_unread(b))
}
