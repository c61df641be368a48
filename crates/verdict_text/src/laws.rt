// The rules of the text, by rows.
ghost use Rattle.verdict_text.specs.Rules.{MarkRows, LineRows, RangeRows, OrderRows, LengthRows, PrintedRows, PlaceRows, CallRows, OutcomeRows};

/// Does nothing: its contract is the rules by rows, what is printed for each text written out.
pub fn rules_table()
    ensures marks { MarkRows }
    ensures lines { LineRows }
    ensures ranges { RangeRows }
    ensures order { OrderRows }
    ensures lengths { LengthRows }
    ensures printed { PrintedRows }
    ensures places { PlaceRows }
    ensures calls { CallRows }
    ensures outcomes { OutcomeRows }
{}
