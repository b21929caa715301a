// A plan and a table, as a call is lent them.
ghost use Rattle.std.specs.Prelude.{◌≡◌};
ghost use Rattle.plans.specs.Plans.{moment, place_for, size_for};
ghost use Rattle.plans.specs.Lent.{plan_in, table_in};

use crate::limits::Limit;
use heads::Head;
use time_rules::whole_ticks;
use times::Time;

// The head and the limits of a plan, and the times of a table: nothing is known of them yet.
#[derive(Clone, Copy)]
pub struct Pair<'a, T> {
    pub head: &'a Head,
    pub limits: &'a [Limit<T>],
    pub times: &'a [T],
}

impl<T: Time> Pair<'_, T> {
    // The time of a point in a row. What lies outside the table counts as time zero.
    pub fn time(&self, row: u8, point: u8) -> T
        ensures { T.Time.moment result ≡ moment (plan_in T.Time.moment self.now) (table_in T.Time.moment self.now) row point }
    {
        self.times
            .get(table_place(self.head, row, point))
            .copied()
            .unwrap_or_else(|| whole_ticks(0))
    }
}

// How many times a table has beside a head: one for each point in each row.
pub fn table_size(head: &Head) -> usize
    ensures { result ≡ size_for head.now.points head.now.letters }
{
    usize::from(head.rows()) * usize::from(head.points())
}

// Where it keeps the time of a point in a row.
pub fn table_place(head: &Head, row: u8, point: u8) -> usize
    ensures { result ≡ place_for head.now.points row point }
{
    usize::from(row) * usize::from(head.points()) + usize::from(point)
}
