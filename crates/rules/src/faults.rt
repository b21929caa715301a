// Why a rule is not made.
ghost use Rattle.std.specs.Prelude.{◌≡◌};
ghost use Rattle.rules.specs.Parameters.{rule_refusal};

use refusals::Refusal;

#[derive(Clone, Copy, PartialEq, Eq, Debug)]
pub enum RuleFault {
    // A round of no ticks, or of too many.
    BadRound,
    // A delay of too many ticks.
    BadDelay,
}

impl From<RuleFault> for Refusal {
    ghost from_gives = { λ f r. r ≡ rule_refusal f };

    fn from(fault: RuleFault) -> Refusal {
        match fault {
            RuleFault::BadRound | RuleFault::BadDelay => Refusal::at(5, 0),
        }
    }
}
