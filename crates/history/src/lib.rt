// The theorem over histories. What it says stands in specs/History.antt; specs/Laws.antt holds its words, its numbers and the plans of its
// writes to what they mean. A function without code does nothing: its contract is the theorem, or the laws.
#![tactic(auto)]

ghost use Rattle.history.specs.History.{HistoryTheorem};
ghost use Rattle.history.specs.Laws.{AnyStoreBegins, AnyWriteAllowed, AnyVolumeWriteAllowed, AnyHealAllowed, AnyCutGoesOn, EachStepPromised, KnownRecords, ReadIsKnown, TheoremWithoutMark, UnmarkedBegins, UnmarkedFinish, UnmarkedCut, StartMark, FinishedMark, LinkAtMost, AnyAsWritten, FailedPayload, HarmfulAlone, HarmfulIsAccident, OnlyTheWritten, NumbersAnswered, NumbersReached, NumbersOfHistory, AllowedIsPlanned, FreePlanIsAllowed, HealPlanIsAllowed};

pub fn history_theorem()
    ensures { HistoryTheorem }
{}

// What it asks for, and no more.
pub fn asked_for()
    ensures store { AnyStoreBegins }
    ensures write { AnyWriteAllowed }
    ensures volume { AnyVolumeWriteAllowed }
    ensures heal { AnyHealAllowed }
    ensures cut { AnyCutGoesOn }
{}

// Then everything is promised, over what it asks for, written out.
#[tactic(auto, using(crate::proofs::PromisedLaws::each_step_promised))]
pub fn asked_steps()
    ensures { EachStepPromised }
{}

// Which records are known, and that what is read is one of them.
#[tactic(auto, using(crate::proofs::Theorem::known_records))]
pub fn known()
    ensures records { KnownRecords }
    ensures read { ReadIsKnown }
{}

// The mark that is read: at the start, and after pair 0 was written.
#[tactic(auto, using(crate::proofs::Theorem::start_mark))]
pub fn mark()
    ensures start { StartMark }
    ensures finished { FinishedMark }
{}

// The theorem where a history has no mark: it begins with a store whose clean mark is false, and no write sets it.
pub fn without_mark()
    ensures theorem { TheoremWithoutMark }
    ensures begins { UnmarkedBegins }
    ensures finished { UnmarkedFinish }
    ensures cut { UnmarkedCut }
{}

// What is no accident.
#[tactic(auto, using(crate::proofs::Theorem::any_as_written, crate::proofs::Theorem::failed_payload))]
pub fn no_accident()
    ensures written { LinkAtMost }
    ensures asked { AnyAsWritten }
    ensures payload { FailedPayload }
{}

// Of its accidents one kind is not needed, and a header that stands again does no harm.
#[tactic(auto, using(crate::proofs::Theorem::harmful_alone, crate::proofs::Theorem::harmful_is_accident))]
pub fn harmful_accidents()
    ensures alone { HarmfulAlone }
    ensures among { HarmfulIsAccident }
{}

// Which slot is named after each of its writes.
#[tactic(auto, using(crate::proofs::Theorem::only_the_written))]
pub fn named_slot()
    ensures { OnlyTheWritten }
{}

// The numbers of its writes are those that `next_number` and `heal_number` answer, and a winner has the highest.
#[tactic(auto, using(crate::proofs::PlanLaws::numbers_answered, crate::proofs::PlanLaws::numbers_reached, crate::proofs::PlanLaws::numbers_of_history))]
pub fn numbers()
    ensures answered { NumbersAnswered }
    ensures reached { NumbersReached }
    ensures highest { NumbersOfHistory }
{}

// `plan_write` and `plan_heal` give its writes, and what they give is one of its writes.
#[tactic(auto, using(crate::proofs::PlanLaws::allowed_is_planned))]
pub fn plans()
    ensures planned { AllowedIsPlanned }
    ensures free { FreePlanIsAllowed }
    ensures healing { HealPlanIsAllowed }
{}
