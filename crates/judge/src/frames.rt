// The judge over frames in bytes, as a host hands them over.
//
// A pair's frame has 69 bytes: the part of slot A, that of slot B (part), and the pair's operator.
//
// | Verdict, 4 bytes a pair | Field |
// |---|---|
// | 0 | standing: 0 Confirmed, 1 Unconfirmed, 2 Lost, 3 Refused |
// | 1 | winner: 0 none, 1 A, 2 B |
// | 2, 3 | A, B: 0 Winner, 1 Nothing, 2 OlderDamaged, 3 InFlight, 4 Damage |
ghost use Rattle.std.specs.Prelude.{◌≡◌, ◌*◌, ◌==◌, length};
ghost use Rattle.judge.specs.Part.{part_width, part_at};
ghost use Rattle.judge.specs.Frames.{verdict_width, verdict_bytes, verdict_from, verdict_cells, operator_in, pair_from, parts_in_range, judge_frames, frames_left, row, refusal, frames_maxima, frames_heal};
ghost use Rattle.judge.specs.Maxima.{two_highest};
ghost use Rattle.judge.specs.Alike.{FramesAside};
ghost use Rattle.judge.specs.Examples.{JudgeExamples};
ghost use Rattle.judge.specs.Table.{Table};
ghost use Rattle.judge.specs.ReadBack.{reads_back, cells_fit};

use crate::numbers::Maxima;
use crate::pairs::{Pair, Shown};
use crate::part::{PART, SlotPart};
use crate::row::{ReadPair, Verdicts};
use crate::verdict::{
    JudgeError, Judgement, MOST_PAIRS, PairVerdict, SlotVerdict, Standing, choice_from,
};
use slot::numbers::choice_number;
use slot::slot::SlotIndex;

/// The place of the operator in a pair's frame,
pub const OPERATOR: usize = 2 * PART;

/// the width of the frame,
pub const FRAME: usize = OPERATOR + 1;

/// and of its verdict.
pub const VERDICT: usize = 4;

impl PairVerdict {
    // The verdict in bytes. A row of bytes, so that the layout is read here: a loop over the fields would be no plainer.
    pub fn bytes(self) -> [u8; VERDICT]
        ensures { result ≡ verdict_bytes self }
    {
        [
            self.standing.as_u8(),
            choice_number(self.winner),
            self.a.as_u8(),
            self.b.as_u8(),
        ]
    }
}

// Both parts of a pair's frame,
#[inline(always)]
pub fn parts(frame: &[u8; FRAME]) -> (SlotPart, SlotPart)
    ensures { result ≡ (part_at frame.now 0, part_at frame.now part_width) }
{
    (SlotPart::read(frame, 0), SlotPart::read(frame, PART))
}

// the pair's operator,
#[inline(always)]
pub fn operator(frame: &[u8; FRAME]) -> u8
    ensures { result ≡ operator_in frame.now }
{
    frame[OPERATOR]
}

// whether the parts' values are in range,
#[inline(always)]
pub fn parts_in_range(frame: &[u8; FRAME]) -> bool
    ensures { result ≡ parts_in_range frame.now }
{
    let (a, b) = parts(frame);
    a.is_in_range() && b.is_in_range()
}

// and what the pair shows.
#[inline(always)]
pub fn shown(frame: &[u8; FRAME]) -> Pair
    ensures { result ≡ pair_from frame.now }
{
    let (a, b) = parts(frame);
    Pair {
        a: a.shown(),
        b: b.shown(),
        operator: operator(frame),
    }
}

impl ReadPair for [u8; FRAME] {
    ghost shown = { pair_from };

    ghost within = { parts_in_range };

    fn is_in_range(&self) -> bool {
        parts_in_range(self)
    }

    #[inline(always)]
    fn operator(&self) -> u8 {
        operator(self)
    }

    fn numbers(&self) -> (u64, u64) {
        let (a, b) = parts(self);
        (a.number(), b.number())
    }

    #[inline(always)]
    fn pair(&self) -> Pair {
        shown(self)
    }

    fn slot(&self, index: SlotIndex) -> Shown {
        let at = match index {
            SlotIndex::A => 0,
            SlotIndex::B => PART,
        };
        SlotPart::read(self, at).shown()
    }
}

// Verdicts as bytes.
struct VerdictBytes<'a>(&'a mut [u8]);

impl Verdicts for VerdictBytes<'_> {
    type Cell = [u8; VERDICT];

    ghost cell = { verdict_bytes };

    ghost read = { verdict_from };

    ghost cells = { λ s. verdict_cells s.0.now };

    ghost fitting = { λ s n. length s.0.now == n * verdict_width };

    ghost place = { λ s. s.0.ghost_name };

    #[tactic(auto, using(crate::proofs::FrameLaws::whole_cells))]
    fn fits(&self, pairs: usize) -> bool {
        self.0.len() % VERDICT == 0 && self.0.len() / VERDICT == pairs
    }

    #[tactic(auto, using(crate::proofs::FrameLaws::length_cells, crate::proofs::FrameLaws::cells_read))]
    fn verdict(&self, i: usize) -> PairVerdict {
        let at = i * VERDICT;
        PairVerdict {
            standing: Standing::from_u8(self.0[at]),
            winner: choice_from(self.0[at + 1]),
            a: SlotVerdict::from_u8(self.0[at + 2]),
            b: SlotVerdict::from_u8(self.0[at + 3]),
        }
    }

    #[tactic(auto, using(crate::proofs::FrameLaws::length_cells, crate::proofs::FrameLaws::cells_put))]
    fn put(&mut self, i: usize, v: PairVerdict) {
        let at = i * VERDICT;
        self.0[at..at + VERDICT].copy_from_slice(&v.bytes());
    }

    ghost fitted = { λ s n. cells_fit s.0.now n };

    ghost reads_back = { reads_back };
}

// Frames, mark and verdicts are three parameters, as in the Rust: a struct of them would be taken apart at once, no plainer.
//
// Judges every pair and writes its verdict. `clean` is the volume winner's clean mark, 0 or 1. Nothing is written where there is an error.
#[inline(always)]
pub fn judge(frames: &[u8], clean: u8, out: &mut [u8]) -> Result<Judgement, JudgeError>
    ensures value { result ≡ judge_frames frames.now clean (length out.old) }
    ensures out_after { out.new ≡ frames_left frames.now clean out.old }
{
    let (pairs, rest) = frames.as_chunks::<FRAME>();
    let mut out = VerdictBytes(out);
    let answer = crate::row::judge(pairs, !rest.is_empty(), clean, &mut out);
    let VerdictBytes(_) = out;
    answer
}

// Why the judge refuses these frames, where there is room for the verdicts.
pub fn refusal(frames: &[u8], clean: u8) -> Option<JudgeError>
    ensures { result ≡ refusal frames.now clean }
{
    let (pairs, rest) = frames.as_chunks::<FRAME>();
    crate::row::refusal(pairs, !rest.is_empty(), clean)
}

// The two highest numbers of an operator in the whole frames, also where the judge refuses them.
pub fn two_highest(frames: &[u8], operator: u8) -> Maxima
    ensures { result ≡ two_highest operator (row frames.now) }
{
    let (pairs, _) = frames.as_chunks::<FRAME>();
    crate::row::two_highest(pairs, operator)
}

// The same, in frames that the judge does not refuse.
pub fn maxima(frames: &[u8], clean: u8, operator: u8) -> Result<Maxima, JudgeError>
    ensures { result ≡ frames_maxima frames.now clean operator }
{
    let (pairs, rest) = frames.as_chunks::<FRAME>();
    crate::row::maxima(pairs, !rest.is_empty(), clean, operator)
}

// The slot of such frames that the judge names for healing, and its pair. The verdicts lie on the stack, 448 bytes.
#[tactic(auto, unfolding(crate::specs::Frames::judge_frames, crate::specs::Frames::frames_error))]
pub fn heal(frames: &[u8], clean: u8) -> Result<Option<(usize, SlotIndex)>, JudgeError>
    ensures { result ≡ frames_heal frames.now clean }
{
    let mut verdicts = [0u8; MOST_PAIRS * VERDICT];
    let pairs = (frames.len() / FRAME).min(MOST_PAIRS);
    let judgement = judge(frames, clean, &mut verdicts[..pairs * VERDICT])?;
    Ok(judgement.heal)
}

// Does nothing: its contract is that frames which differ in owner generations alone are judged alike, but for whether the winners' differ.
#[tactic(auto, using(crate::proofs::AlikeLaws::frames_aside))]
pub fn owners_law()
    ensures { FramesAside }
{}

// Does nothing: its contract is the examples, and the table of a frame's layout and of the numbers.
#[tactic(auto, unfolding(codec::specs::Bytes::le, crate::specs::Judge::first_verdicts, crate::specs::Judge::first_tally, crate::specs::Judge::row_rules, crate::specs::Judge::verdicts, crate::specs::Judge::judgement, crate::specs::Frames::frames_error, crate::specs::Frames::judge_frames, crate::specs::Frames::frames_left, crate::specs::Part::part_bytes))]
pub fn examples()
    ensures examples { JudgeExamples }
    ensures table { Table }
{}
