// The limits, the times and the head of a shifted pair.
ghost use Rattle.std.specs.Prelude.{◌≡◌, ℕ, ◌<◌, ◌≤◌, ◌+◌, map, length, take, drop, slice_index_or, pos, neg_ℤ};
ghost use Rattle.std.specs.List.{range_with_len};
ghost use Rattle.heads.specs.Heads.{outline_of};
ghost use Rattle.plans.specs.Lent.{plan_in, table_in};
ghost use Rattle.plans.specs.Plans.{letters, limit_at, origin, test};
ghost use Rattle.plans.specs.Views.{limit_of};
ghost use Rattle.shift_theory.specs.Lent.{delay_in, round_in};
ghost use Rattle.shift_theory.specs.Shifts.{limits_size, plain_limit, points_size, shifted_limits, shifted_moment, shifted_outline, shifted_plan, shifted_table, times_size};

use crate::kept::KeptPair;
use heads::Head;
use plans::Limit;
use time_rules::whole_ticks;
use times::Time;

impl<T: Time> KeptPair<'_, T> {
    pub(crate) fn fill_limits(&self, limits: &mut [Limit<T>])
        requires { limits_size (plan_in T.Time.moment self.now.pair) ≤ length limits.old }
        ensures front { map (limit_of T.Time.moment) (take (limits_size (plan_in T.Time.moment self.now.pair)) limits.new) ≡ shifted_limits (plan_in T.Time.moment self.now.pair) (delay_in self.now.pair) }
        ensures rest { drop (limits_size (plan_in T.Time.moment self.now.pair)) limits.new ≡ drop (limits_size (plan_in T.Time.moment self.now.pair)) limits.old }
    {
        fill(limits, self.count_limits(), |j| self.limit_at(j));
    }

    // The limit with a number: an old one, or one of the two of a test. Not by `chunks_exact_mut`, here and below: after
    // it only the length of what it cut is known.
    fn limit_at(&self, j: usize) -> Limit<T>
        requires { j < limits_size (plan_in T.Time.moment self.now.pair) }
        ensures { limit_of T.Time.moment result ≡ limit_at (shifted_plan (plan_in T.Time.moment self.now.pair) (delay_in self.now.pair)) j }
    {
        let limits = self.pair.limits;
        if j < limits.len() {
            return limits[j];
        }
        let past = j - limits.len();
        let letter = (past / 2) as u8;
        if past % 2 == 0 {
            self.limit_to(letter)
        } else {
            self.limit_from(letter)
        }
    }

    // The new test comes at most the delay after its test.
    fn limit_to(&self, letter: u8) -> Limit<T>
        requires { letter < letters (plan_in T.Time.moment self.now.pair) }
        ensures { limit_of T.Time.moment result ≡ plain_limit (test (plan_in T.Time.moment self.now.pair) letter) (self.now.pair.head.now.points + letter) (pos (delay_in self.now.pair)) }
    {
        let head = self.pair.head;
        let (test, new) = (head.point(letter), head.points() + letter);
        plain_limit(test, new, head.delay() as i32)
    }

    // It comes at least the delay after it.
    fn limit_from(&self, letter: u8) -> Limit<T>
        requires { letter < letters (plan_in T.Time.moment self.now.pair) }
        ensures { limit_of T.Time.moment result ≡ plain_limit (self.now.pair.head.now.points + letter) (test (plan_in T.Time.moment self.now.pair) letter) (neg_ℤ (pos (delay_in self.now.pair))) }
    {
        let head = self.pair.head;
        let (test, new) = (head.point(letter), head.points() + letter);
        plain_limit(new, test, -(head.delay() as i32))
    }

    pub(crate) fn fill_times(&self, times: &mut [T])
        requires { times_size (plan_in T.Time.moment self.now.pair) ≤ length times.old }
        ensures front { map T.Time.moment (take (times_size (plan_in T.Time.moment self.now.pair)) times.new) ≡ shifted_table (plan_in T.Time.moment self.now.pair) (table_in T.Time.moment self.now.pair) (delay_in self.now.pair) }
        ensures rest { drop (times_size (plan_in T.Time.moment self.now.pair)) times.new ≡ drop (times_size (plan_in T.Time.moment self.now.pair)) times.old }
    {
        fill(times, self.count_times(), |at| self.time_at(at));
    }

    // The time at a place: of a point in a row.
    fn time_at(&self, at: usize) -> T
        requires { at < times_size (plan_in T.Time.moment self.now.pair) }
        ensures { T.Time.moment result ≡ slice_index_or (shifted_table (plan_in T.Time.moment self.now.pair) (table_in T.Time.moment self.now.pair) (delay_in self.now.pair)) at origin }
    {
        let points = usize::from(self.count_points());
        self.shifted_time((at / points) as u8, (at % points) as u8)
    }

    // The old time of a point, or the time of a new test.
    fn shifted_time(&self, row: u8, point: u8) -> T
        ensures { T.Time.moment result ≡ shifted_moment (plan_in T.Time.moment self.now.pair) (table_in T.Time.moment self.now.pair) (delay_in self.now.pair) row point }
    {
        let points = self.pair.head.points();
        if point < points {
            self.pair.time(row, point)
        } else {
            self.new_time(row, point - points)
        }
    }

    // The tests are the points after the old ones, r stays, and there is no delay.
    pub(crate) fn shifted_head(&self) -> Head
        requires { points_size (plan_in T.Time.moment self.now.pair) ≤ 48 }
        ensures { outline_of result ≡ shifted_outline (plan_in T.Time.moment self.now.pair) (round_in self.now.pair) }
    {
        let old = self.pair.head;
        let points = self.next_points();
        let tests = &points[..usize::from(old.letters())];
        let Ok(head) = Head::new(self.count_points(), tests, old.round(), 0) else {
            unreachable()
        };
        head
    }

    // The six points after the old ones.
    fn next_points(&self) -> [u8; 6]
        ensures { result ≡ range_with_len self.now.pair.head.now.points 6 }
    {
        let first = self.pair.head.points();
        std::array::from_fn(|i| first + i as u8)
    }
}

// A limit without letters.
fn plain_limit<T: Time>(from: u8, to: u8, ticks: i32) -> Limit<T>
    ensures { limit_of T.Time.moment result ≡ plain_limit from to ticks }
{
    Limit {
        from,
        to,
        wanted: 0,
        unwanted: 0,
        bound: whole_ticks(ticks),
    }
}

// The first so many places of a slice filled, each by its number.
fn fill<X: Copy, F: Fn(usize) -> X>(items: &mut [X], count: usize, item: F)
    requires room { count ≤ length items.old }
    requires callable { (i : ℕ) → i < count → F.pre item i }
    ensures front { (i : ℕ) (d : X) → i < count → F.post item i (slice_index_or items.new i d) }
    ensures rest { drop count items.new ≡ drop count items.old }
{
    for (i, slot) in items[..count].iter_mut().enumerate() {
        *slot = item(i);
    }
}
