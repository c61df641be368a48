// The theorem on the creation of a store is not empty: a store of two operators is created, a page of the one, a page of the other and the
// volume record, and cuts of a page's and of the volume record's first write, in the magic, in the header and in the payload, are no
// accidents. What is judged and read back at each step and after each cut is computed, and not concluded from the theorem. Each function does
// nothing: its contract is what specs/Writes.antt and specs/States.antt say.
#![tactic(auto)]

ghost use Rattle.creation_examples.specs.Writes.{StoresWritten, FirstWrites, StoresCreating, Made, Planned, MetIsEnough, PageMet, VolumeMet, StandsWhole};
ghost use Rattle.creation_examples.specs.States.{PageStates, VolumeStates};

/// Three first writes lead from Blank slots to a sound store, with which a history begins.
#[tactic(auto, using(crate::proofs::Writes::first_writes, crate::proofs::Writes::stores_creating, crate::proofs::Writes::made))]
pub fn reached()
    ensures stores { StoresWritten }
    ensures first { FirstWrites }
    ensures creating { StoresCreating }
    ensures made { Made }
{}

/// `plan_write` gives each of them.
#[tactic(auto, using(crate::proofs::Writes::planned))]
pub fn planned()
    ensures { Planned }
{}

/// The hypotheses are those of the theorem, and they are met at seven cuts, on both sides of the byte that makes the volume record whole.
#[tactic(auto, using(crate::proofs::Writes::met_is_enough, crate::proofs::Writes::page_met, crate::proofs::Writes::volume_met, crate::proofs::Writes::volume_whole))]
pub fn met()
    ensures enough { MetIsEnough }
    ensures page { PageMet }
    ensures volume { VolumeMet }
    ensures whole { StandsWhole }
{}

/// What is judged and read back at each step and after each cut.
#[tactic(auto, using(crate::proofs::Computed::page_states, crate::proofs::Computed::volume_states))]
pub fn states()
    ensures page { PageStates }
    ensures volume { VolumeStates }
{}
