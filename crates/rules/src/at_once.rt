// The prompt rule.
ghost use Rattle.std.specs.Prelude.{◌≡◌};
ghost use Rattle.rules.specs.Meanings.{prompt};
ghost use Rattle.rules.specs.Delays.{earlier_trans};

use crate::meanings::Rule;
use times::Time;

// An outcome is seen at every later moment.
#[derive(Clone, Copy)]
pub struct Prompt;

impl Rule for Prompt {
    ghost sees = { λ _. prompt };

    ghost persists = { λ x i o t u. earlier_trans o t u };

    ghost afterwards = { λ x i o t h. h };

    fn is_seen<T: Time>(&self, _test: u8, taken: T, at: T) -> bool {
        taken.is_earlier(at)
    }
}
