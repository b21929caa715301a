// The rule of rounds.
ghost use Rattle.std.specs.Prelude.{◌≡◌, ◌≤◌};
ghost use Rattle.rules.specs.Meanings.{by_round, by_tick, rounds};
ghost use Rattle.times.specs.Moments.{last_tick};
ghost use Rattle.rules.specs.Histories.{rounds_persist, rounds_afterwards};

use crate::meanings::Rule;
use times::Time;

// Outcomes are looked at every so many ticks, from time zero on.
#[derive(Clone, Copy)]
pub struct Rounds {
    pub(crate) ticks: u32,
    ghost some: { 1 ≤ ticks },
    ghost bounded: { ticks ≤ 1000000 },
}

impl Rule for Rounds {
    ghost sees = { λ x. rounds x.ticks };

    ghost persists = { λ x. rounds_persist x.ticks x.some };

    ghost afterwards = { λ x. rounds_afterwards x.ticks };

    fn is_seen<T: Time>(&self, _test: u8, taken: T, at: T) -> bool {
        self.is_before_round(taken, at)
    }
}

impl Rounds {
    // Is an outcome taken before the round of a step?
    fn is_before_round<T: Time>(&self, taken: T, at: T) -> bool
        ensures { result ≡ by_round self.now.ticks (T.Time.moment taken) (last_tick (T.Time.moment at)) }
    {
        self.is_tick_before_round(taken.last_tick(), at.last_tick())
    }

    // With `last` the last whole tick of a step: is `taken` before the largest multiple of the round up to it?
    fn is_tick_before_round(&self, taken: i64, last: i64) -> bool
        ensures { result ≡ by_tick self.now.ticks taken last }
    {
        if last < 0 {
            return false;
        }
        let every = i64::from(self.ticks);
        taken < last / every * every
    }
}
