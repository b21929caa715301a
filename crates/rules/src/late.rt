// A rule with a delay.
ghost use Rattle.std.specs.Prelude.{◌≡◌, ◌≤◌};
ghost use Rattle.rules.specs.Meanings.{delayed};
ghost use Rattle.rules.specs.Delays.{delayed_persists, delayed_afterwards};

use crate::meanings::Rule;
use times::{Ticks, Time};

// What the rule below sees of an outcome that is taken so many ticks later.
#[derive(Drop)]
pub struct Delay<R> {
    // a number, and no `Ticks`: public clauses name it as one
    pub(crate) ticks: u32,
    pub(crate) below: R,
    ghost bounded: { ticks ≤ 1000000 },
}

impl<R: Rule> Rule for Delay<R> {
    ghost sees = { λ x. delayed x.ticks (R.Rule.sees x.below) };

    ghost persists = { λ x. delayed_persists x.ticks (R.Rule.sees x.below) (R.Rule.persists x.below) };

    ghost afterwards = { λ x. delayed_afterwards x.ticks (R.Rule.sees x.below) (R.Rule.afterwards x.below) };

    fn is_seen<T: Time>(&self, test: u8, taken: T, at: T) -> bool {
        let Some(ticks) = Ticks::new(self.ticks) else {
            unreachable()
        };
        taken
            .add_ticks(ticks)
            .is_some_and(|later| self.below.is_seen(test, later, at))
    }
}
