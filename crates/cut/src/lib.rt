// The cut theorem. What it says stands in specs/Cut.antt, what is assumed of the store in specs/Store.antt; specs/Laws.antt holds their
// words to what they mean. A function without code does nothing: its contract is the theorem, or the laws.
#![tactic(auto)]

ghost use Rattle.std.specs.Prelude.{◌≡◌, List, ℕ};
ghost use Rattle.pair.specs.Winner.{read_pair};
ghost use Rattle.judge.specs.Same.{NothingGiven, ChecksumGiven, NumbersGiven};
ghost use Rattle.cut.specs.Store.{Slot, Pair, Typed};
ghost use Rattle.cut.specs.Cut.{CutTheorem, PayloadIs};
ghost use Rattle.cut.specs.Laws.{VolumeRefused, PageRefused, AnyRest, AnyTyped, AnySlot, AnyFirst, AnyBoth, AnyPage, AnyPairs, AnyRow, AnyWritten, AnyCorrect, AnyCorrectWrite, AnyCutSurvived, AnyPoint, SoundUnderAny, Encoded, EachSector, AnySectors, AnywhereInOrder, AnywhereBySectors, UnmarkedRecord, UnmarkedStore, UnmarkedAsked, VolumeAsked, PageHanded, TornHanded, WholeHanded, FailedSum, FailedPayload, OlderAtMost, OlderSurvived, OldHeaderKept, NoneInOrder, PairFrame, OnePayload, HasSlots, AnyHasSlots};

use judge::pairs::Version;
use pair::pair::PairReport;
use slot::slot::Expect;

pub fn cut_theorem()
    ensures { CutTheorem }
{}

// What a decoder refuses is no record of a sound store, and none that is read back.
pub fn refused_records()
    ensures volume { VolumeRefused }
    ensures page { PageRefused }
{}

// What a sound store and a correct write ask for, and no more.
pub fn asked_store()
    ensures rest { AnyRest }
    ensures typed { AnyTyped }
    ensures slot { AnySlot }
    ensures first { AnyFirst }
    ensures both { AnyBoth }
    ensures page { AnyPage }
    ensures pairs { AnyPairs }
    ensures row { AnyRow }
    ensures written { AnyWritten }
    ensures correct { AnyCorrect }
    ensures correct_write { AnyCorrectWrite }
{}

// The theorem over what it asks for, written out.
#[tactic(auto, using(crate::proofs::StatementLaws::any_point, crate::proofs::SurvivedLaws::any_cut_survived))]
pub fn asked_cut()
    ensures point { AnyPoint }
    ensures survived { AnyCutSurvived }
{}

// What the types say of a slot is what the types of the code hold: whatever bytes are lent, whatever identity and size they are read with, and
// whatever numbers a host left in the other fields of a frame, which are handed back.
pub fn typed_slot(bytes: &[u8], expect: Expect, rest: Version) -> Version
    ensures typed { Typed (record { bytes = bytes.now; expect = expect; rest = result }) }
    ensures kept { result ≡ rest }
{
    rest
}

// A store whose numbers were counted for all its pairs together needs no change.
pub fn counted_before()
    ensures { SoundUnderAny }
{}

// A correct write is one that `encode` writes.
#[tactic(auto, using(crate::proofs::WriteLaws::encoded))]
pub fn correct_write()
    ensures { Encoded }
{}

// What a cut by sectors leaves.
#[tactic(auto, using(crate::proofs::SectorLaws::each_sector))]
pub fn cut_by_sectors()
    ensures each { EachSector }
    ensures any { AnySectors }
{}

// Where a write may be cut that is cut anywhere.
pub fn cut_anywhere()
    ensures ascending { AnywhereInOrder }
    ensures sectors { AnywhereBySectors }
{}

// When a record and a store have no clean mark.
#[tactic(auto, using(crate::proofs::StatementLaws::unmarked_record))]
pub fn clean_mark()
    ensures unmarked_record { UnmarkedRecord }
    ensures unmarked_store { UnmarkedStore }
{}

// What the theorem asks of the mark.
#[tactic(auto, using(crate::proofs::StatementLaws::unmarked_asked))]
pub fn asked_mark()
    ensures unmarked { UnmarkedAsked }
    ensures volume { VolumeAsked }
{}

// Which mark the judge is handed.
#[tactic(auto, using(crate::proofs::StatementLaws::page_handed, crate::proofs::StatementLaws::torn_handed, crate::proofs::StatementLaws::whole_handed))]
pub fn handed_mark()
    ensures page { PageHanded }
    ensures torn { TornHanded }
    ensures whole { WholeHanded }
{}

// What is no accident.
#[tactic(auto, using(crate::proofs::CutLaws::failed_payload, crate::proofs::CutLaws::older_at_most))]
pub fn no_accident()
    ensures header { FailedSum }
    ensures payload { FailedPayload }
    ensures older { OlderAtMost }
{}

// The accident that only sectors add does no harm.
pub fn older_survived()
    ensures { OlderSurvived }
{}

// Where bytes reach the slot in ascending order, the accident that only sectors add cannot happen.
#[tactic(auto, using(crate::proofs::StatementLaws::old_header_kept))]
pub fn cut_in_order()
    ensures kept { OldHeaderKept }
    ensures none { NoneInOrder }
{}

// The frames are the bytes that the library fills, with what the host left in the other fields.
#[tactic(auto, using(judge::proofs::PartLaws::nothing_given, judge::proofs::PartLaws::checksum_alone, judge::proofs::PartLaws::numbers_alone, crate::proofs::StatementLaws::pair_frame))]
pub fn frames()
    ensures kept { NothingGiven }
    ensures kept_beside_checksum { ChecksumGiven }
    ensures kept_beside_numbers { NumbersGiven }
    ensures filled { PairFrame }
{}

// Of every pair one record at most is read back.
pub fn one_record()
    ensures { OnePayload }
{}

// Which pairs have these slots.
#[tactic(auto, using(crate::proofs::StatementLaws::any_has_slots))]
pub fn read_slots()
    ensures { AnyHasSlots }
{}

// What the theorem calls read back is what `winner_payload` hands out: its part is the record of every pair with these slots.
#[tactic(auto, using(crate::proofs::StatementLaws::handed_back))]
pub fn read_back<'a>(
    a: &'a [u8],
    expect_a: &Expect,
    b: &'a [u8],
    expect_b: &Expect,
) -> (PairReport, &'a [u8])
    ensures back { (p : Pair) → HasSlots p a.now expect_a.now b.now expect_b.now → PayloadIs p result.1.now }
    ensures only { (p : Pair) → HasSlots p a.now expect_a.now b.now expect_b.now → (r : List ℕ) → PayloadIs p r → result.1.now ≡ r }
    ensures report { result.0 ≡ read_pair a.now expect_a.now b.now expect_b.now }
{
    pair::winner::winner_payload(a, expect_a, b, expect_b)
}
