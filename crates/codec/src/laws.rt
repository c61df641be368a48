// Functions that do nothing: each one's contract is a law of checksum and cursor.
ghost use Rattle.codec.specs.Rules.{ChecksumRows, ReadRows, WriteRows};

/// Does nothing: its contract is the rules of checksum and cursor by rows, on both sides of each bound.
pub fn rules_table()
    ensures checksums { ChecksumRows }
    ensures reading { ReadRows }
    ensures writing { WriteRows }
{}
