// The creation of a store, pair by pair. What it says stands in specs/Creation.antt; specs/Laws.antt holds its words to what they mean, to the
// functions that plan its writes and to the history that begins with it. A function without code does nothing: its contract is the theorem,
// or the laws.
#![tactic(auto)]

ghost use Rattle.creation.specs.Creation.{NeitherJudged, NeitherAnswered, CreationTheorem};
ghost use Rattle.creation.specs.Laws.{ZerosAreBlank, BlankIsNew, AnyRowBegins, AnyPageIsWritten, VolumeIsWrittenLast, AnyFirstWrite, AnyCreationCut, FirstIsPlanned, PlanIsFirst, MadeBegins, WholeBegins};

/// A store is there once the volume record stands whole, and not before.
#[tactic(auto, using(crate::proofs::RowLaws::neither_judged, crate::proofs::Theorem::creation_theorem))]
pub fn creation_theorem()
    ensures judged { NeitherJudged }
    ensures answered { NeitherAnswered }
    ensures creation { CreationTheorem }
{}

/// What it asks for, and no more.
#[tactic(auto, using(crate::proofs::Theorem::zeros_are_blank))]
pub fn asked_for()
    ensures zeros { ZerosAreBlank }
    ensures new { BlankIsNew }
    ensures row { AnyRowBegins }
    ensures page { AnyPageIsWritten }
    ensures volume { VolumeIsWrittenLast }
    ensures first { AnyFirstWrite }
{}

/// The theorem over what it asks for, written out.
#[tactic(auto, using(crate::proofs::Theorem::any_creation_cut))]
pub fn asked_cut()
    ensures { AnyCreationCut }
{}

/// `plan_write` gives its writes, and what it gives to a pair that was not written is one.
#[tactic(auto, using(crate::proofs::PlanLaws::first_is_planned))]
pub fn plans()
    ensures planned { FirstIsPlanned }
    ensures first { PlanIsFirst }
{}

/// With the store that it makes a history begins.
#[tactic(auto, using(crate::proofs::Theorem::made_begins, crate::proofs::Theorem::whole_begins))]
pub fn begins()
    ensures made { MadeBegins }
    ensures whole { WholeBegins }
{}
