// The places of C's numbers. The functions do nothing: their contracts are the tables.
ghost use Rattle.store_io.specs.Tables.{ArgumentPlaces, SlotPlaces, PairPlaces, JudgementPlaces, RecordPlaces, EntryPlaces};
ghost use Rattle.store_io.specs.Planning.{PlanPlaces};

// What a number stands for that a C host hands over,
#[tactic(auto, unfolding(crate::specs::Arguments::volume_id))]
pub fn arguments_table()
    ensures { ArgumentPlaces }
{}

// and where a C host finds the numbers of what is answered.
#[tactic(auto, unfolding(crate::specs::Pairs::report_bytes, pair::specs::Numbers::report_numbers, pair::specs::Pair::decide))]
pub fn numbers_table()
    ensures slots { SlotPlaces }
    ensures pairs { PairPlaces }
    ensures judgements { JudgementPlaces }
    ensures plans { PlanPlaces }
    ensures records { RecordPlaces }
    ensures entries { EntryPlaces }
{}
