// The theorem over histories is not empty: three histories of sound stores. In the first two the write that heals is cut too; no accident
// happens in the one, and in the other a header stands again, an accident that does no harm. The third is the life of a store, which is
// closed and opened. What is judged and read back after each step is computed, and not concluded from the theorem. What `next_write` promises
// of cuts is not empty either. Each function does nothing: its contract is what specs/Healing.antt, specs/OlderHeader.antt, specs/Life.antt and
// specs/NextWrite.antt say.
#![tactic(auto)]

ghost use Rattle.history_examples.specs.Healing.{HealingReached, HealingStates, HealingNumbers};
ghost use Rattle.history_examples.specs.Life.{LifeReached, LifeStates, LifeNumbers, LifeClosed};
ghost use Rattle.history_examples.specs.NextWrite.{PagePlanned, SecondPlanned};
ghost use Rattle.history_examples.specs.OlderHeader.{OlderHeaderReached, SlotAsAtFirst, StandsByAccident, StandsWithoutHarm, OlderHeaderStates, OlderHeaderNumbers};

// A write is cut in its header, the one that heals after its first sector, and written again it is finished.
#[tactic(auto, using(crate::proofs::Healing::reached, crate::proofs::Healing::states, crate::proofs::Healing::numbers))]
pub fn healing_cut()
    ensures reached { HealingReached }
    ensures states { HealingStates }
    ensures numbers { HealingNumbers }
{}

// A store is closed, opened, written and closed again. The write that opens it is cut, and healed while the clean mark is set; the page's is
// cut and healed too.
#[tactic(auto, using(crate::proofs::Life::reached, crate::proofs::Life::states, crate::proofs::Life::numbers, crate::proofs::Life::while_closed))]
pub fn closed_and_opened()
    ensures reached { LifeReached }
    ensures states { LifeStates }
    ensures numbers { LifeNumbers }
    ensures closed { LifeClosed }
{}

// A write is cut after nine bytes and the one that heals too, which leaves the slot as it was before both; the next write is finished.
#[tactic(auto, using(crate::proofs::OlderHeader::reached, crate::proofs::OlderHeader::states, crate::proofs::OlderHeader::numbers))]
pub fn older_header()
    ensures reached { OlderHeaderReached }
    ensures states { OlderHeaderStates }
    ensures numbers { OlderHeaderNumbers }
{}

// The second cut of that history is among the accidents of the theorem, and not among those that do harm.
#[tactic(auto, using(crate::proofs::OlderHeader::as_at_first))]
pub fn harmless_accident()
    ensures bytes { SlotAsAtFirst }
    ensures accident { StandsByAccident }
    ensures harmless { StandsWithoutHarm }
{}

// `next_write` gives two writes of the store that the histories begin with, and its promise holds of ten cuts of them.
#[tactic(auto, using(crate::proofs::NextWrite::page_planned, crate::proofs::NextWrite::second_planned))]
pub fn next_writes()
    ensures page { PagePlanned }
    ensures second { SecondPlanned }
{}
