// The judge over a row of pairs as read, for a caller that has bytes: a pair's frame stands for its record. It exists for the gate, since
// no host can hand over records; hosts call the judge over frames.
#![tactic(auto)]

ghost use Rattle.std.specs.Prelude.{◌≡◌, length};
ghost use Rattle.row.specs.Records.{status_from, facts_from, slot_of, pair_of, SameShown};
ghost use Rattle.row.specs.Judged.{SameAnswer, judge_row, verdicts_left, records_left, bytes_left};
ghost use Rattle.row.specs.Rules.{RecordRows, RefusalRows, LeftRows};

use judge::frames::{FRAME, VERDICT, operator, parts};
use judge::part::SlotPart;
use judge::records::{PairRead, SlotRead};
use judge::verdict::{JudgeError, Judgement, PairVerdict};
use slot::slot::{HeaderFacts, SlotStatus};

// ---- the record of a frame

// A number that is no status stands for a slot that was not read. A line in `plan` too: a method for both would say no more than
// `unwrap_or`.
fn status_from(part: SlotPart) -> SlotStatus
    ensures { result ≡ status_from part }
{
    part.status().unwrap_or(SlotStatus::ReadError)
}

// By a match, since facts are an option in an option, which no number can be cast to.
fn facts_from(part: SlotPart) -> Option<HeaderFacts>
    ensures { result ≡ facts_from part }
{
    let v = part.version;
    match part.facts {
        1 => Some(HeaderFacts {
            stored_header_crc32c: v.header_crc32c,
            numbered: None,
        }),
        2 => Some(HeaderFacts {
            stored_header_crc32c: v.header_crc32c,
            numbered: Some(v.numbered()),
        }),
        _ => None,
    }
}

// Of a part and of a frame by name: with `From` a contract would name the same, and a line more each.
fn slot_of(part: SlotPart) -> SlotRead
    ensures { result ≡ slot_of part }
{
    SlotRead {
        status: status_from(part),
        facts: facts_from(part),
    }
}

fn pair_of(frame: &[u8; FRAME]) -> PairRead
    ensures { result ≡ pair_of frame.now }
{
    let (a, b) = parts(frame);
    PairRead {
        a: slot_of(a),
        b: slot_of(b),
        operator: operator(frame),
    }
}

// ---- the judge

// Judges the pairs that the frames stand for into the first `room` of the lent verdicts: 8, 9, 45 and, for an operator, 10 are the judge's
// errors; 10 is for no whole frames and for more pairs or verdicts than were lent too. Of the lent pairs the first are the records of the
// frames.
#[tactic(auto, unfolding(crate::specs::Judged::judge_row, crate::specs::Judged::records_left, crate::specs::Judged::verdicts_left))]
pub fn judge_row(
    frames: &[u8],
    clean: bool,
    room: usize,
    pairs: &mut [PairRead],
    verdicts: &mut [PairVerdict],
) -> Result<Judgement, JudgeError>
    ensures value { result ≡ judge_row frames.now clean room (length pairs.old) (length verdicts.old) }
    ensures pairs_after { pairs.new ≡ records_left frames.now room pairs.old (length verdicts.old) }
    ensures verdicts_after { verdicts.new ≡ verdicts_left frames.now clean room (length pairs.old) verdicts.old }
{
    let (whole, rest) = frames.as_chunks::<FRAME>();
    if !rest.is_empty() || whole.len() > pairs.len() || room > verdicts.len() {
        return Err(JudgeError::OutOfRange);
    }
    // By index: with iter_mut the proof does not close, since it says nothing of what the slice ends as.
    for (i, frame) in whole.iter().enumerate() {
        pairs[i] = pair_of(frame);
    }
    judge::records::judge(&pairs[..whole.len()], clean, &mut verdicts[..room])
}

// Does nothing: its contract is that a frame whose slots' values are in range and the record that it stands for tell the judge the same, the
// owner generation and the operator included, so that both judges answer the same over them.
#[tactic(auto, using(crate::proofs::SameLaws::same_shown, crate::proofs::SameLaws::same_answer))]
pub fn same_law()
    ensures shown { SameShown }
    ensures answer { SameAnswer }
{}

// ---- the verdicts in bytes

// Writes all bytes of the verdicts, where as many are lent.
#[tactic(auto, unfolding(crate::specs::Judged::bytes_left), using(crate::proofs::RecordLaws::written))]
pub fn put_verdicts(verdicts: &[PairVerdict], out: &mut [u8])
    ensures { out.new ≡ bytes_left verdicts.now out.old }
{
    if out.len() / VERDICT != verdicts.len() || out.len() % VERDICT != 0 {
        return;
    }
    // By index: with chunks_mut the proof does not close, since it says nothing of what the slice ends as.
    for (i, v) in verdicts.iter().enumerate() {
        let at = i * VERDICT;
        out[at..at + VERDICT].copy_from_slice(&v.bytes());
    }
}

/// Does nothing: its contract is the rules by rows, on both sides of each bound: the records of frames, what is refused, and what is left.
#[tactic(auto, using(crate::proofs::RulesLaws::record_rows, crate::proofs::RulesLaws::refusal_rows, crate::proofs::RulesLaws::left_rows))]
pub fn rules_table()
    ensures records { RecordRows }
    ensures refusals { RefusalRows }
    ensures left { LeftRows }
{}
