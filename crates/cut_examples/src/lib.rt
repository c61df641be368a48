// The cut theorem is not empty: four stores of two operators are sound, writes to both slots of a page, to a Blank one and to the volume
// record, also of a closed store, are correct, and cuts after no byte, in the header, in the payload and after the last byte, and with any of
// two sectors, are no accidents. What is judged and read back after each cut is computed, and not concluded from the theorem. Each function
// does nothing: its contract is what specs/Writes.antt and specs/Cuts.antt say.
#![tactic(auto)]

ghost use Rattle.cut_examples.specs.Writes.{StoresSound, StoresMarked, StoresWritten, MetIsEnough, PageMet, VolumeMet, OpeningMet, SecondMet, LaterMet, LongMet, LongInOrderMet, StandsWhole, LongWhole, LongInOrderWhole, MarkHanded, OldMarkHanded};
ghost use Rattle.cut_examples.specs.Cuts.{PageCuts, VolumeCuts, OpeningCuts, OtherCuts, SectorCuts, LongCuts, MagicCuts};

// The stores are sound, one has the clean mark, and they are those that are written to.
#[tactic(auto, using(crate::proofs::LongWrites::stores_sound, crate::proofs::LongWrites::stores_marked))]
pub fn stores()
    ensures sound { StoresSound }
    ensures marked { StoresMarked }
    ensures written { StoresWritten }
{}

// The hypotheses are those of the theorem.
#[tactic(auto, using(crate::proofs::Writes::met_is_enough))]
pub fn hypotheses()
    ensures { MetIsEnough }
{}

// They are met at thirty cuts of six writes in ascending order, and at four cuts of one by sectors.
#[tactic(auto, using(crate::proofs::Writes::page_cuts, crate::proofs::Writes::volume_cuts, crate::proofs::Writes::opening_cuts, crate::proofs::Writes::second_cut, crate::proofs::Writes::later_cuts, crate::proofs::LongWrites::long_cuts, crate::proofs::LongWrites::long_cuts_in_order))]
pub fn met()
    ensures page { PageMet }
    ensures volume { VolumeMet }
    ensures opening { OpeningMet }
    ensures second { SecondMet }
    ensures later { LaterMet }
    ensures sectors { LongMet }
    ensures in_order { LongInOrderMet }
{}

// On both sides of the byte, and of the sector, that makes the new record whole.
#[tactic(auto, using(crate::proofs::Writes::page_whole, crate::proofs::Writes::volume_marks, crate::proofs::Writes::opening_marks, crate::proofs::LongWrites::long_whole, crate::proofs::LongWrites::long_whole_in_order))]
pub fn whole()
    ensures page { StandsWhole }
    ensures sectors { LongWhole }
    ensures in_order { LongInOrderWhole }
    ensures mark { MarkHanded }
    ensures old_mark { OldMarkHanded }
{}

// What is judged and read back after each cut.
#[tactic(auto, using(crate::proofs::Computed::page_computed, crate::proofs::Computed::volume_computed, crate::proofs::Computed::opening_computed, crate::proofs::Computed::other_computed, crate::proofs::LongWrites::long_computed, crate::proofs::LongWrites::long_in_order_computed))]
pub fn cuts()
    ensures page { PageCuts }
    ensures volume { VolumeCuts }
    ensures opening { OpeningCuts }
    ensures other { OtherCuts }
    ensures sectors { SectorCuts }
    ensures in_order { LongCuts }
{}

// After one to six bytes over a Blank slot.
#[tactic(auto, using(crate::proofs::Computed::magic_computed))]
pub fn left_out()
    ensures { MagicCuts }
{}
