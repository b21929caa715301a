// How much a shifted pair has of each.
ghost use Rattle.std.specs.Prelude.{◌≡◌};
ghost use Rattle.plans.specs.Lent.{plan_in};
ghost use Rattle.shift_theory.specs.Shifts.{limits_size, points_size, times_size};

use crate::kept::KeptPair;
use times::Time;

impl<T: Time> KeptPair<'_, T> {
    pub(crate) fn count_points(&self) -> u8
        ensures { result ≡ points_size (plan_in T.Time.moment self.now.pair) }
    {
        self.pair.head.points() + self.pair.head.letters()
    }

    pub(crate) fn count_limits(&self) -> usize
        ensures { result ≡ limits_size (plan_in T.Time.moment self.now.pair) }
    {
        self.pair.limits.len() + 2 * usize::from(self.pair.head.letters())
    }

    pub(crate) fn count_times(&self) -> usize
        ensures { result ≡ times_size (plan_in T.Time.moment self.now.pair) }
    {
        usize::from(self.pair.head.rows()) * usize::from(self.count_points())
    }
}
