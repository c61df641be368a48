// Functions that do nothing: each one's contract is a law of pairs.
ghost use Rattle.pair.specs.Rules.{StatusRows, GenerationRows, LinkRows, ReportRows, InfoRows, PayloadRows};

/// Does nothing: its contract is the rules of a pair by rows, on both sides of each bound.
pub fn rules_table()
    ensures statuses { StatusRows }
    ensures generations { GenerationRows }
    ensures links { LinkRows }
    ensures reports { ReportRows }
    ensures infos { InfoRows }
    ensures payloads { PayloadRows }
{}
