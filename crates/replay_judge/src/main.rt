// Replays the reference's judgements, which compare/src/list_judge.rs makes, against both judges: over frames, as C hosts call it, and over
// the row of records that the frames stand for.
//
// A line of standard input is a case, `NAME INPUT EXPECTED`: the answer to INPUT must be EXPECTED, byte for byte. Numbers are
// little-endian; their widths in bytes are in brackets.
//
// | NAME | judges | INPUT | EXPECTED |
// |---|---|---|---|
// | jdg | both | MARK, frames of 1 to 112 pairs | 0 (1), JUDGEMENT, verdicts |
// | frm | over frames | MARK, frames | refusal (1) |
// | row | over the row | MARK, frames of at most 224 pairs | refusal (1), verdicts as they were |
//
// - MARK: the clean mark (1) and the length of the lent verdicts (2), at most 896.
// - JUDGEMENT: the slot to heal, its pair, writable, clean, refused, whether owners differ (8 each).
// - Verdicts have 4 bytes each. Before the judge over the row is called they are Lost, no winner, Damage and Damage.
//
// The answer over frames is compared with EXPECTED before the one over the row is made, which is compared by itself. A refusal of the judge
// over frames that changes what it was lent is packed as an answer, so that the case differs.
#![tactic(auto)]

ghost use Rattle.std.specs.Prelude.{◌≤◌};

use cases::input::{first_length, first_u8, narrow};
use cases::replay::{Bytes, Table};
use judge::frames::{FRAME, VERDICT};
use judge::records::{PairRead, SlotRead};
use judge::verdict::{MOST_PAIRS, PairVerdict, SlotVerdict, Standing};
use row::{judge_row, put_verdicts};
use slot::slot::SlotStatus;
use std::io;
use store_io::judging::{JUDGEMENT, judgement_values, sio_judge};

/// The most pairs of a row: more than are judged, to be refused.
const PAIRS: usize = 2 * MOST_PAIRS;

/// The pairs of a short row. Most are, and the room of a row of PAIRS would take most of their time.
const SHORT: usize = 8;

/// The bytes of MARK.
const MARK: usize = 3;

struct Judges;

fn main(rt: HostRuntime) -> io::Result<()> {
    Judges::run(rt.alloc(), rt.reader(), &mut rt.stdout())
}

impl Table for Judges {
    const NAMES: &'static [&'static str] = &["jdg", "frm", "row"];

    const LONGEST: usize = 131_072;

    const FIELD: usize = MARK + PAIRS * FRAME;

    fn answer(name: &[u8], input: &[u8], answer: &mut Bytes) -> Option<()> {
        match name {
            b"jdg" | b"frm" => over_frames(input, answer),
            b"row" => over_row(input, answer),
            _ => None,
        }
    }

    fn second(name: &[u8], input: &[u8], answer: &mut Bytes) -> Option<()> {
        match name {
            b"jdg" => {
                answer.clear();
                over_row(input, answer)
            }
            _ => Some(()),
        }
    }
}

fn over_frames(input: &[u8], answer: &mut Bytes) -> Option<()> {
    let (clean, rest) = first_u8(input)?;
    let (length, frames) = first_length(rest)?;
    let mut verdicts = Bytes::try_from([255u8; PAIRS * VERDICT].get(..length)?).ok()?;
    let mut judgement = [255u64; JUDGEMENT];
    let refusal = sio_judge(frames, clean, &mut verdicts, &mut judgement);
    answer.try_push(narrow(refusal)).ok()?;
    if refusal != 0
        && verdicts.iter().all(|byte| *byte == 255)
        && judgement == [255u64; JUDGEMENT]
    {
        return Some(());
    }
    put_judgement(answer, &judgement, &verdicts)
}

fn over_row(input: &[u8], answer: &mut Bytes) -> Option<()> {
    let (clean, rest) = first_u8(input)?;
    let (length, frames) = first_length(rest)?;
    if clean > 1 || length % VERDICT != 0 {
        return None;
    }
    if frames.len() <= SHORT * FRAME && length <= SHORT * VERDICT {
        in_room::<SHORT>(frames, clean == 1, length, answer)
    } else {
        in_room::<PAIRS>(frames, clean == 1, length, answer)
    }
}

// The answer in a row with room for N pairs and as many verdicts, of which `length` bytes are lent.
fn in_room<const N: usize>(
    frames: &[u8],
    clean: bool,
    length: usize,
    answer: &mut Bytes,
) -> Option<()>
    requires { N ≤ 224 }
{
    let unread = SlotRead {
        status: SlotStatus::ReadError,
        facts: None,
    };
    let mut pairs = [PairRead {
        a: unread,
        b: unread,
        operator: 0,
    }; N];
    let mut verdicts = [PairVerdict {
        standing: Standing::Lost,
        winner: None,
        a: SlotVerdict::Damage,
        b: SlotVerdict::Damage,
    }; N];
    let judged = judge_row(frames, clean, length / VERDICT, &mut pairs, &mut verdicts);
    let mut bytes = [0u8; PAIRS * VERDICT];
    let left = bytes.get_mut(..length)?;
    put_verdicts(verdicts.get(..length / VERDICT)?, left);
    match judged {
        Err(error) => {
            answer.try_push(error.number()).ok()?;
            answer.try_extend_from_slice(left).ok()
        }
        Ok(j) => {
            answer.try_push(0).ok()?;
            put_judgement(answer, &judgement_values(j), left)
        }
    }
}

fn put_judgement(answer: &mut Bytes, judgement: &[u64; JUDGEMENT], verdicts: &[u8]) -> Option<()> {
    for number in judgement {
        answer.try_extend_from_slice(&number.to_le_bytes()).ok()?;
    }
    answer.try_extend_from_slice(verdicts).ok()
}
