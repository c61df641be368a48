// The highest numbers of a store, kept as its slots are gone through, and the rule that a candidate's number is held to: one more than the
// highest of all other numbered slots of its operator.
ghost use Rattle.std.specs.Prelude.{◌≡◌, ℕ};
ghost use Rattle.judge.specs.Maxima.{no_operator_maxima, no_own, maxima_of, note, note_two, note_own, others_max, qualifies_by};

use crate::operators::MOST_OPERATOR;

// The two highest numbers of the slots gone through, the same one twice where two slots hold it; 0 where there is none.
#[derive(Clone, Copy, Default)]
pub struct Maxima {
    pub first: u64,
    pub second: u64,
}

impl Maxima {
    // With the numbers of two more slots: the lower one beside the higher one, so that little waits for what was noted before.
    #[inline(always)]
    fn with(self, a: u64, b: u64) -> Self
        ensures { result ≡ note (note self a) b }
    {
        let high = a.max(b);
        Maxima {
            first: self.first.max(high),
            second: self.second.max(self.first.min(high).max(a.min(b))),
        }
    }

    // The highest number but for one slot that counts for `own`.
    pub fn others(self, own: u64) -> u64
        ensures { result ≡ others_max self own }
    {
        if own == self.first {
            self.second
        } else {
            self.first
        }
    }

    // Whether a candidate of this number is one above all other slots', as far as its number is known.
    pub(crate) fn qualifies(self, seq: Option<u64>) -> bool
        ensures { result ≡ qualifies_by self seq }
    {
        match seq {
            None => true,
            Some(v) => {
                let others = self.others(v);
                v > others && v - others == 1
            }
        }
    }
}

// What the numbers of a row are noted in, pair by pair: 0 stands for a slot that is not numbered.
pub(crate) trait Notes {
    ghost noted: { Self → ℕ → ℕ → ℕ → Self };

    fn note(&mut self, operator: u8, a: u64, b: u64)
        ensures { self.new ≡ noted self.old operator a b };
}

// Nothing, where the refusal alone is asked for.
impl Notes for () {
    ghost noted = { λ none o x y. none };

    #[inline(always)]
    fn note(&mut self, _operator: u8, _a: u64, _b: u64) {}
}

// How many operators there are.
const OPERATORS: usize = MOST_OPERATOR as usize + 1;

// The highest numbers of each operator.
#[derive(Clone, Copy)]
pub(crate) struct OperatorMaxima {
    maxima: [Maxima; OPERATORS],
}

impl OperatorMaxima {
    pub(crate) fn new() -> Self
        ensures { result ≡ no_operator_maxima }
    {
        OperatorMaxima {
            maxima: [Maxima {
                first: 0,
                second: 0,
            }; OPERATORS],
        }
    }

    // Those of an operator; of one that there is not, none.
    #[inline(always)]
    pub(crate) fn of(&self, operator: u8) -> Maxima
        ensures { result ≡ maxima_of self.now operator }
    {
        let at = usize::from(operator);
        if at < OPERATORS {
            self.maxima[at]
        } else {
            Maxima::default()
        }
    }
}

impl Notes for OperatorMaxima {
    ghost noted = { note_two };

    #[inline(always)]
    fn note(&mut self, operator: u8, a: u64, b: u64) {
        let at = usize::from(operator);
        if at < OPERATORS {
            self.maxima[at] = self.maxima[at].with(a, b);
        }
    }
}

// Those of one operator.
#[derive(Clone, Copy)]
pub(crate) struct OwnMaxima {
    operator: u8,
    pub(crate) maxima: Maxima,
}

impl OwnMaxima {
    pub(crate) fn new(operator: u8) -> Self
        ensures { result ≡ no_own operator }
    {
        OwnMaxima {
            operator,
            maxima: Maxima {
                first: 0,
                second: 0,
            },
        }
    }
}

impl Notes for OwnMaxima {
    ghost noted = { note_own };

    #[inline(always)]
    fn note(&mut self, operator: u8, a: u64, b: u64) {
        if operator == self.operator {
            self.maxima = self.maxima.with(a, b);
        }
    }
}
