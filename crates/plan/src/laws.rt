// The laws of the planned writes, each the contract of a function that does nothing.
ghost use Rattle.plan.specs.Numbers.{WinnersOfVerdicts, WinnersOfOne};
ghost use Rattle.plan.specs.Plan.{NotTheWinner};
ghost use Rattle.plan.specs.Heal.{HealsTheNamed};
ghost use Rattle.plan.specs.Rules.{PlanRows, NumberRows, HealRows, WriteRows, ErrorRows};
ghost use Rattle.plan.specs.Promise.{AnyGiven, AnyPlannedFor, MoreRefused, PlannedIsCorrect, BothKindsSurvived, NextWriteSurvived, FinishedIsSound};

// Does nothing: its contract is that the winners whose numbers `heal_number` goes by are those of the judge's verdicts, and all of them
// where all pairs are one operator's.
#[tactic(auto, using(crate::proofs::WinnerLaws::winners_of_verdicts, crate::proofs::WinnerLaws::winners_of_one))]
pub fn winners_law()
    ensures verdicts { WinnersOfVerdicts }
    ensures one { WinnersOfOne }
{}

// Does nothing: its contract is that the planned slot is never the winner.
pub fn slot_law()
    ensures { NotTheWinner }
{}

// Does nothing: its contract is that the planned heal is of the slot that the judge names.
#[tactic(auto, using(crate::proofs::HealLaws::heals_the_named))]
pub fn heal_law()
    ensures { HealsTheNamed }
{}

// Does nothing: its contract is that of more pairs than are judged nothing is numbered, planned or encoded.
pub fn limit_law()
    ensures { MoreRefused }
{}

// Does nothing: its contract is that a planned write is the cut theorem's correct write.
#[tactic(auto, using(crate::proofs::CorrectLaws::planned_is_correct))]
pub fn correct_law()
    ensures { PlannedIsCorrect }
{}

// Does nothing: its contract is that what `next_write` promises of cuts is of those in ascending order and of those by sectors.
pub fn cuts_law()
    ensures { BothKindsSurvived }
{}

// Does nothing: its contract is what `next_write` promises of cuts, over all that it asks for, written out.
#[tactic(auto, using(crate::proofs::PromiseLaws::next_write_survived))]
pub fn next_write_law()
    ensures { NextWriteSurvived }
{}

// Does nothing: its contract is that no more is asked of what is given with a plan, and of the store.
pub fn asked_law()
    ensures given { AnyGiven }
    ensures store { AnyPlannedFor }
{}

// Does nothing: its contract is that a correct write which is finished leaves a sound store whose last record is the payload.
pub fn finished_law()
    ensures { FinishedIsSound }
{}

/// Does nothing: its contract is the rules of numbers, plans and next writes by rows, on both sides of each bound, and the numbers of what
/// is refused.
pub fn rules_table()
    ensures plans { PlanRows }
    ensures numbers { NumberRows }
    ensures heals { HealRows }
    ensures writes { WriteRows }
    ensures errors { ErrorRows }
{}
