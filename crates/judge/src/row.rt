// The judge of a row of pairs, whatever they and the lent verdicts are kept in. The row is gone through four times: for the ranges and
// the highest numbers, for each pair's own verdict, for the rules of the whole store, and for the winners' owners. Pair 0 is the volume
// record.
ghost use Rattle.std.specs.Prelude.{◌≡◌, ◌<◌, ◌≤◌, ◌==◌, ◌&&◌, nat_le, ℕ, Bool, List, if◌then◌else◌, length, map, true, Some, None, slice_get, slice_set, OnOk, OnErr};
ghost use Rattle.std.specs.Borrow.{GName};
ghost use Rattle.judge.specs.declared.pairs.Pair.{Pair};
ghost use Rattle.judge.specs.declared.verdict.PairVerdict.{PairVerdict};
ghost use Rattle.judge.specs.Operators.{operators_in_range};
ghost use Rattle.judge.specs.Maxima.{two_highest, note_pairs};
ghost use Rattle.judge.specs.Pairs.{numbered, pair_case};
ghost use Rattle.judge.specs.Numbers.{number};
ghost use Rattle.judge.specs.Verdict.{by_index};
ghost use Rattle.judge.specs.Owners.{owner, owners, any_two_differ};
ghost use Rattle.judge.specs.Passes.{verdict_by, verdicts_by, no_tally, tallies, heals};
ghost use Rattle.judge.specs.Judge.{last_verdicts, judgement, verdicts, row_error, row_in_range, unless};

use crate::numbers::{Maxima, Notes, OperatorMaxima, OwnMaxima};
use crate::operators;
use crate::pairs::{Pair, PairCase, Shown};
use crate::verdict::{JudgeError, Judgement, MOST_PAIRS, PairVerdict, StoreRules, Tally};
use slot::slot::SlotIndex;

// Both slots of one pair, in the form that a caller has.
pub(crate) trait ReadPair {
    ghost shown: { Self → Pair };

    ghost within: { Self → Bool };

    // Whether the values of its slots are in range.
    fn is_in_range(&self) -> bool
        ensures { result ≡ within self.now };

    fn operator(&self) -> u8
        ensures { result ≡ (shown self.now).operator };

    // The numbers that its slots count for, 0 where they are not numbered.
    fn numbers(&self) -> (u64, u64)
        ensures { result ≡ (number (numbered (shown self.now).a), number (numbered (shown self.now).b)) };

    // What the slots show,
    fn pair(&self) -> Pair
        ensures { result ≡ shown self.now };

    // and one of them.
    fn slot(&self, index: SlotIndex) -> Shown
        ensures { result ≡ by_index index (shown self.now).a (shown self.now).b };
}

// Lent verdicts, in the form that a caller has.
pub(crate) trait Verdicts {
    type Cell;

    ghost cell: { PairVerdict → Self.Cell };

    ghost read: { Self.Cell → PairVerdict };

    ghost cells: { Self → List Self.Cell };

    // Whether there is a verdict a pair, of so many pairs.
    ghost fitting: { Self → ℕ → Bool };

    // The lent place.
    ghost place: { Self → GName };

    fn fits(&self, pairs: usize) -> bool
        ensures { result ≡ fitting self.now pairs };

    fn verdict(&self, i: usize) -> PairVerdict
        requires { i < length (cells self.now) }
        ensures { slice_get (map read (cells self.now)) i ≡ Some result };

    fn put(&mut self, i: usize, v: PairVerdict)
        requires { i < length (cells self.old) }
        ensures cells { cells self.new ≡ slice_set (cells self.old) i (cell v) }
        ensures place { place self.new ≡ place self.old };

    ghost fitted: { (s : Self) (n : ℕ) → fitting s n ≡ true → length (cells s) ≡ n };

    ghost reads_back: { (v : PairVerdict) → read (cell v) ≡ v };
}

// Whether all values of the row are in range; notes its numbers, all of them if they are.
#[inline(always)]
fn note<P: ReadPair, C: Notes>(pairs: &[P], notes: &mut C) -> bool
    ensures range { result ≡ row_in_range P.within P.shown pairs.now }
    ensures noted { result ≡ true → notes.new ≡ note_pairs C.noted notes.old (map P.shown pairs.now) }
{
    for (i, p) in pairs.iter().enumerate() {
        let operator = p.operator();
        if !p.is_in_range() || !operators::is_in_range(i == 0, operator) {
            return false;
        }
        let (a, b) = p.numbers();
        notes.note(operator, a, b);
    }
    true
}

// What a pair's slots show, and its first verdict.
#[inline(always)]
fn first<P: ReadPair>(p: &P, maxima: &OperatorMaxima) -> (PairCase, PairVerdict)
    ensures { result ≡ (pair_case (P.shown p.now), verdict_by maxima.now (P.shown p.now)) }
{
    let pair = p.pair();
    let case = pair.case();
    (case, PairVerdict::first(maxima, pair.operator, case))
}

// The pairs and their highest numbers go side by side through the passes: a struct of both would be taken apart in each.
//
// Writes each pair's first verdict, and counts over them.
#[inline(always)]
fn first_pass<P: ReadPair, V: Verdicts>(pairs: &[P], maxima: &OperatorMaxima, out: &mut V) -> Tally
    requires { length (V.cells out.old) ≡ length pairs.now }
    ensures room { length (V.cells out.new) ≡ length pairs.now }
    ensures tally { result ≡ tallies maxima.now true no_tally (map P.shown pairs.now) }
    ensures cells { V.cells out.new ≡ map V.cell (verdicts_by maxima.now (map P.shown pairs.now)) }
    ensures place { V.place out.new ≡ V.place out.old }
{
    let mut t = Tally::default();
    for (i, p) in pairs.iter().enumerate() {
        let (case, v) = first(p, maxima);
        t.count(i == 0, case, v);
        out.put(i, v);
    }
    t
}

// Makes each first verdict the last one, and answers the write to heal. The volume record has a rule of its own.
#[inline(always)]
fn second_pass<V: Verdicts>(
    rules: StoreRules,
    pairs: usize,
    out: &mut V,
) -> Option<(usize, SlotIndex)>
    requires room { length (V.cells out.old) ≡ pairs }
    requires hold { map V.cell (map V.read (V.cells out.old)) ≡ V.cells out.old }
    ensures room { length (V.cells out.new) ≡ length (V.cells out.old) }
    ensures heal { result ≡ heals 0 None (last_verdicts rules.volume_demote rules.page_demote (map V.read (V.cells out.old))) }
    ensures cells { V.cells out.new ≡ map V.cell (last_verdicts rules.volume_demote rules.page_demote (map V.read (V.cells out.old))) }
    ensures place { V.place out.new ≡ V.place out.old }
{
    let mut heal = None;
    // By index: with iter_mut the proof does not close, since it says nothing of what the slice ends as.
    for i in 0..pairs {
        let v = out.verdict(i);
        if v.in_flight() {
            let last = v.demoted_if(rules.demotes(i == 0));
            heal = last.heal_or(i, heal);
            out.put(i, last);
        }
    }
    heal
}

// The refusals in their order; notes the numbers, of all pairs where there is none. `rest`: a part of a pair follows, which the limit
// counts as a pair; `room`: there is room for the verdicts.
#[inline(always)]
pub(crate) fn admit<P: ReadPair, C: Notes>(
    pairs: &[P],
    rest: bool,
    clean: u8,
    room: bool,
    notes: &mut C,
) -> Result<(), JudgeError>
    ensures value { result ≡ unless (row_error (record { pairs = length pairs.now; rest = rest; fits = room; within = nat_le clean 1 && row_in_range P.within P.shown pairs.now })) tt }
    ensures range { OnOk result (operators_in_range true (map P.shown pairs.now) ≡ true) }
    ensures noted { OnOk result (notes.new ≡ note_pairs C.noted notes.old (map P.shown pairs.now)) }
{
    if !rest && pairs.is_empty() {
        return Err(JudgeError::Empty);
    }
    if pairs.len() > MOST_PAIRS - usize::from(rest) {
        return Err(JudgeError::TooManyPairs);
    }
    if rest {
        return Err(JudgeError::OutOfRange);
    }
    if !room {
        return Err(JudgeError::OutputLength);
    }
    if clean > 1 || !note(pairs, notes) {
        return Err(JudgeError::OutOfRange);
    }
    Ok(())
}

// The owner generation of a pair's winner.
fn owner<P: ReadPair>(p: &P, winner: Option<SlotIndex>) -> Option<u64>
    ensures { result ≡ owner (P.shown p.now) winner }
{
    match p.slot(winner?) {
        Shown::Valid(v) => Some(v.owner_generation),
        _ => None,
    }
}

// Whether two winners, any two, have different ones: each is compared with the first.
#[inline(always)]
fn owners_differ<P: ReadPair, V: Verdicts>(pairs: &[P], out: &V) -> bool
    requires { length (V.cells out.now) ≡ length pairs.now }
    ensures { result ≡ any_two_differ (owners (map P.shown pairs.now) (map V.read (V.cells out.now))) }
{
    let mut first = None;
    for (i, p) in pairs.iter().enumerate() {
        let Some(owner) = owner(p, out.verdict(i).winner) else {
            continue;
        };
        if owner != first.unwrap_or(owner) {
            return true;
        }
        first = Some(owner);
    }
    false
}

// Judges every pair and writes its verdict. `rest`: a part of a pair follows; `clean` is the volume winner's clean mark, 0 or 1. Nothing is
// written where there is an error.
#[inline(always)]
pub(crate) fn judge<P: ReadPair, V: Verdicts>(
    pairs: &[P],
    rest: bool,
    clean: u8,
    out: &mut V,
) -> Result<Judgement, JudgeError>
    ensures value { result ≡ unless (row_error (record { pairs = length pairs.now; rest = rest; fits = V.fitting out.old (length pairs.now); within = nat_le clean 1 && row_in_range P.within P.shown pairs.now })) (judgement (map P.shown pairs.now) (clean == 1)) }
    ensures cells { OnOk result (V.cells out.new ≡ map V.cell (verdicts (map P.shown pairs.now) (clean == 1))) }
    ensures kept { OnErr result (out.new ≡ out.old) }
    ensures place { V.place out.new ≡ V.place out.old }
{
    let mut maxima = OperatorMaxima::new();
    admit(pairs, rest, clean, out.fits(pairs.len()), &mut maxima)?;
    let tally = first_pass(pairs, &maxima, out);
    let volume = out.verdict(0);
    let rules = tally.rules(clean == 1, volume);
    let heal = second_pass(rules, pairs.len(), out);
    let last = out.verdict(0);
    Ok(Judgement {
        heal,
        writable: tally.writable(volume.standing, last.standing),
        clean: rules.clean,
        refused: tally.refused,
        owners_differ: owners_differ(pairs, out),
    })
}

// ---- with no verdict kept

// The highest numbers of an operator. `rest`: a part of a pair follows; `clean` is the volume winner's clean mark, 0 or 1.
#[inline(always)]
pub(crate) fn maxima<P: ReadPair>(
    pairs: &[P],
    rest: bool,
    clean: u8,
    operator: u8,
) -> Result<Maxima, JudgeError>
    ensures { result ≡ unless (row_error (record { pairs = length pairs.now; rest = rest; fits = true; within = nat_le clean 1 && row_in_range P.within P.shown pairs.now })) (two_highest operator (map P.shown pairs.now)) }
{
    let mut own = OwnMaxima::new(operator);
    admit(pairs, rest, clean, true, &mut own)?;
    Ok(own.maxima)
}

// Why the row is not judged, where there is room for the verdicts.
pub(crate) fn refusal<P: ReadPair>(pairs: &[P], rest: bool, clean: u8) -> Option<JudgeError>
    ensures { result ≡ row_error (record { pairs = length pairs.now; rest = rest; fits = true; within = nat_le clean 1 && row_in_range P.within P.shown pairs.now }) }
{
    admit(pairs, rest, clean, true, &mut ()).err()
}

// The highest numbers of an operator, also where the row is refused.
pub(crate) fn two_highest<P: ReadPair>(pairs: &[P], operator: u8) -> Maxima
    ensures { result ≡ two_highest operator (map P.shown pairs.now) }
{
    let mut own = OwnMaxima::new(operator);
    for p in pairs {
        let (a, b) = p.numbers();
        own.note(p.operator(), a, b);
    }
    own.maxima
}
