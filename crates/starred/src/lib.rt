// Examples at the edges of slots and pages.
#![tactic(auto)]

ghost use Rattle.starred.specs.Starred.{Starred, Capacities};

// Does nothing: its contract is the examples.
#[tactic(auto, using(crate::proofs::Starred::starred))]
pub fn examples()
    ensures { Starred }
{}

// Does nothing: its contract is the capacities of a page.
#[tactic(auto, using(crate::proofs::Starred::capacities))]
pub fn capacities()
    ensures { Capacities }
{}
