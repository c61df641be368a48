// The operators that share a store, each with numbers of its own: they count from 0, and the volume record is operator 0's.
ghost use Rattle.std.specs.Prelude.{◌≡◌};
ghost use Rattle.judge.specs.Operators.{operator_in_range, OperatorsApart, OneOperator};

/// The highest operator,
pub const MOST_OPERATOR: u8 = 15;

/// and that of the volume record.
pub const VOLUME_OPERATOR: u8 = 0;

// Whether a pair can be of this operator; `volume`: the volume record, which is operator 0's alone.
#[inline(always)]
pub fn is_in_range(volume: bool, operator: u8) -> bool
    ensures { result ≡ operator_in_range volume operator }
{
    if volume {
        operator == VOLUME_OPERATOR
    } else {
        operator <= MOST_OPERATOR
    }
}

// Does nothing: its contract is that one operator's numbers change no qualifying of another's candidates, and that where all pairs are one
// operator's a candidate is held to all slots of the store.
#[tactic(auto, using(crate::proofs::OperatorLaws::operators_apart, crate::proofs::OperatorLaws::one_operator))]
pub fn operators_law()
    ensures apart { OperatorsApart }
    ensures one { OneOperator }
{}
