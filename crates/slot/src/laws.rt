// Functions that do nothing: each one's contract is a law of slots.
ghost use Rattle.slot.specs.Header.{HeaderLayout};
ghost use Rattle.slot.specs.Laws.{PaddingLaw, StatusRange, RoundTrip};
ghost use Rattle.slot.specs.Rules.{SizeRows, FieldRows, StatusRows, OrderRows, FactRows, WriteRows, PlaceRows, NumberRows};
ghost use Rattle.slot.specs.Table.{Table};

// Does nothing: its contract is that the header read step by step is the header by its offsets.
#[tactic(auto, using(crate::proofs::HeaderLaws::header_layout))]
pub fn layout_law()
    ensures { HeaderLayout }
{}

// Does nothing: its contract is that the bytes after the payload do not count.
#[tactic(auto, using(crate::proofs::PaddingLaws::padding_law))]
pub fn padding_law()
    ensures { PaddingLaw }
{}

// Does nothing: its contract is that a slot's status is 1 to 12.
#[tactic(auto, using(crate::proofs::StatusLaws::status_range))]
pub fn status_law()
    ensures { StatusRange }
{}

// Does nothing: its contract is that what `encode` wrote is Valid with its fields and its payload, whatever stands after it.
#[tactic(auto, using(crate::proofs::RoundTripLaws::round_trip))]
pub fn round_trip_law()
    ensures { RoundTrip }
{}

// Does nothing: its contract is a table of the places of the header's fields, and of the numbers of statuses, refusals and indexes.
#[tactic(auto, using(crate::proofs::TableLaws::table))]
pub fn table_law()
    ensures { Table }
{}

/// Does nothing: its contract is the rules of a slot by rows, on both sides of each bound.
pub fn rules_table()
    ensures sizes { SizeRows }
    ensures fields { FieldRows }
    ensures statuses { StatusRows }
    ensures order { OrderRows }
    ensures facts { FactRows }
    ensures writing { WriteRows }
    ensures places { PlaceRows }
    ensures numbers { NumberRows }
{}
