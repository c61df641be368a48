// Why nothing is planned.
ghost use Rattle.std.specs.Prelude.{◌≡◌};
ghost use Rattle.plan.specs.declared.error.PlanError.{PlanError};
ghost use Rattle.plan.specs.Error.{error_number};

use judge::verdict::JudgeError;
use slot::slot::EncodeError;

// Why there is no number, no plan, or no next write.
#[derive(Clone, Copy)]
pub enum PlanError {
    // The judge refuses these frames.
    Frames(JudgeError),
    // The row has no such pair.
    NoPair,
    // There is no such operator.
    NoOperator,
    // No generation or no number is left.
    UsedUp,
    // The planned write is not encoded.
    Encode(EncodeError),
}

impl PlanError {
    // Its number. By a match, since two of the cases have an error's number.
    pub fn number(self) -> u8
        ensures { result ≡ error_number self }
    {
        match self {
            PlanError::Frames(error) => error.number(),
            PlanError::NoPair => 8,
            PlanError::NoOperator => 10,
            PlanError::UsedUp => 48,
            PlanError::Encode(error) => error.number(),
        }
    }
}

impl From<JudgeError> for PlanError {
    ghost from_gives = { λ error answer. answer ≡ PlanError.Frames error };

    fn from(error: JudgeError) -> PlanError {
        PlanError::Frames(error)
    }
}
