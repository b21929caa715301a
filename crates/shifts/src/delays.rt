// Times a delay later.
ghost use Rattle.std.specs.Prelude.{◌≡◌, ◌≤◌, true};
ghost use Rattle.plans.specs.Lent.{plan_in, table_in};
ghost use Rattle.times.specs.Moments.{table_rule};
ghost use Rattle.shift_theory.specs.Lent.{delay_in};
ghost use Rattle.shift_theory.specs.Shifts.{later, new_moment};

use crate::kept::KeptPair;
use times::{Ticks, Time};

impl<T: Time> KeptPair<'_, T> {
    // The time of the new test with a letter in a row.
    pub(crate) fn new_time(&self, row: u8, letter: u8) -> T
        ensures { T.Time.moment result ≡ new_moment (plan_in T.Time.moment self.now.pair) (table_in T.Time.moment self.now.pair) (delay_in self.now.pair) row letter }
    {
        let head = self.pair.head;
        delayed(self.pair.time(row, head.point(letter)), head.delay())
    }
}

// A time of a table, so many ticks later.
fn delayed<T: Time>(time: T, delay: u32) -> T
    requires { (table_rule (T.Time.moment time) ≡ true) × (delay ≤ 1000000) }
    ensures { T.Time.moment result ≡ later (T.Time.moment time) delay }
{
    let Some(ticks) = Ticks::new(delay) else {
        unreachable()
    };
    let Some(later) = time.add_ticks(ticks) else {
        unreachable()
    };
    later
}
