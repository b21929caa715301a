// The rule below the delay of a named rule.
ghost use Rattle.std.specs.Prelude.{◌≡◌};
ghost use Rattle.rules.specs.Bases.{base_meaning};
ghost use Rattle.rules.specs.declared.bases.BaseRule.TheVariants.{Prompt, Rounds};
ghost use Rattle.rules.specs.Delays.{earlier_trans};
ghost use Rattle.rules.specs.Histories.{rounds_persist, rounds_afterwards};

use crate::at_once::Prompt;
use crate::in_rounds::Rounds;
use crate::meanings::Rule;
use times::Time;

// An enum, since a rule behind a pointer would need a heap.
#[derive(Clone, Copy)]
pub enum BaseRule {
    Prompt(Prompt),
    Rounds(Rounds),
}

impl Rule for BaseRule {
    ghost sees = { base_meaning };

    ghost persists = { elim [
      | Prompt x ↦ λ i o t u. earlier_trans o t u
      | Rounds x ↦ rounds_persist x.ticks x.some
    ] };

    ghost afterwards = { elim [ Prompt x ↦ λ i o t h. h | Rounds x ↦ rounds_afterwards x.ticks ] };

    fn is_seen<T: Time>(&self, test: u8, taken: T, at: T) -> bool {
        match self {
            BaseRule::Prompt(rule) => rule.is_seen(test, taken, at),
            BaseRule::Rounds(rule) => rule.is_seen(test, taken, at),
        }
    }
}
