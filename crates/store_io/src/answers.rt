// What a C function answers: the number of a refusal, which keeps the lent place, or 0.
ghost use Rattle.std.specs.Prelude.{◌≡◌, ℕ};
ghost use Rattle.slot.specs.Status.{error_number as encode_number};
ghost use Rattle.judge.specs.Values.{error_number as judge_number};
ghost use Rattle.meta.specs.Error.{number as meta_number};
ghost use Rattle.plan.specs.Error.{error_number as plan_number};
ghost use Rattle.store_io.specs.Host.{answer};

use judge::verdict::JudgeError;
use meta::meta::MetaError;
use plan::error::PlanError;
use slot::slot::EncodeError;

// An error that a host is told by its number.
pub trait Refusal {
    ghost told: { Self → ℕ };

    fn refusal(self) -> u32
        ensures { result ≡ told self };
}

impl Refusal for EncodeError {
    ghost told = { encode_number };

    fn refusal(self) -> u32 {
        u32::from(self.number())
    }
}

impl Refusal for JudgeError {
    ghost told = { judge_number };

    fn refusal(self) -> u32 {
        u32::from(self.number())
    }
}

impl Refusal for MetaError {
    ghost told = { meta_number };

    fn refusal(self) -> u32 {
        u32::from(self.number())
    }
}

impl Refusal for PlanError {
    ghost told = { plan_number };

    fn refusal(self) -> u32 {
        u32::from(self.number())
    }
}

// Hands over what was made. The C interface answers a refusal as a number.
pub fn give<T: Copy, E: Copy + Refusal>(made: Result<T, E>, place: &mut T) -> u32
    ensures { (result, place.new) ≡ answer E.told (λ x. x) place.old made }
{
    match made {
        Ok(value) => {
            *place = value;
            0
        }
        Err(error) => error.refusal(),
    }
}
