// What is checked before anything is written.
ghost use Rattle.std.specs.Prelude.{◌≡◌};
ghost use Rattle.refusals.specs.Answers.{answer_of, unless};
ghost use Rattle.plans.specs.Lent.{plan_in, table_in};
ghost use Rattle.plans.specs.Plans.{letters};
ghost use Rattle.refusals.specs.Searches.{every};
ghost use Rattle.shift_theory.specs.Lent.{delay_in};
ghost use Rattle.shift_theory.specs.Shifts.{all_timely, rooms_refusal, shift_refusal, small, timely};
ghost use Rattle.shifts.specs.Faults.{shift_fault};

use crate::faults::ShiftFault;
use crate::kept::KeptPair;
use plans::Pair;
use refusals::check_room;
use time_rules::is_table_time;
use times::Time;

// A pair that can be shifted into arrays of so many limits and times, or its first refusal.
pub(crate) fn check_shift<'a, T: Time>(
    pair: &Pair<'a, T>,
    limits_room: usize,
    times_room: usize,
) -> Result<KeptPair<'a, T>, ShiftFault>
    ensures { answer_of (λ kept. kept.pair) shift_fault result ≡ unless (shift_refusal (plan_in T.Time.moment pair.now) (table_in T.Time.moment pair.now) (delay_in pair.now) limits_room times_room) pair.now }
{
    let kept = KeptPair::new(pair)?;
    if !kept.is_small() {
        return Err(ShiftFault::TooLarge);
    }
    kept.check_rooms(limits_room, times_room)?;
    Ok(kept)
}

impl<T: Time> KeptPair<'_, T> {
    // Whether nothing of the shifted pair passes its bound.
    fn is_small(&self) -> bool
        ensures { result ≡ small (plan_in T.Time.moment self.now.pair) (table_in T.Time.moment self.now.pair) (delay_in self.now.pair) }
    {
        self.count_points() <= 48 && self.count_limits() <= 256 && self.are_timely()
    }

    // Whether no new time is too late.
    fn are_timely(&self) -> bool
        ensures { result ≡ all_timely (plan_in T.Time.moment self.now.pair) (table_in T.Time.moment self.now.pair) (delay_in self.now.pair) }
    {
        (0..self.pair.head.rows()).all(|row| self.is_row_timely(row))
    }

    fn is_row_timely(&self, row: u8) -> bool
        ensures { result ≡ every (letters (plan_in T.Time.moment self.now.pair)) (timely (plan_in T.Time.moment self.now.pair) (table_in T.Time.moment self.now.pair) (delay_in self.now.pair) row) }
    {
        (0..self.pair.head.letters()).all(|letter| self.is_timely(row, letter))
    }

    // Whether the new test with a letter is not too late in a row. As a time of the table it can be nothing else.
    fn is_timely(&self, row: u8, letter: u8) -> bool
        ensures { result ≡ timely (plan_in T.Time.moment self.now.pair) (table_in T.Time.moment self.now.pair) (delay_in self.now.pair) row letter }
    {
        is_table_time(self.new_time(row, letter))
    }

    // Whether the arrays have room, the one for limits first.
    fn check_rooms(&self, limits_room: usize, times_room: usize) -> Result<(), ShiftFault>
        ensures { answer_of (λ u. u) shift_fault result ≡ unless (rooms_refusal (plan_in T.Time.moment self.now.pair) (table_in T.Time.moment self.now.pair) (delay_in self.now.pair) limits_room times_room) tt }
    {
        check_room(limits_room, self.count_limits()).map_err(ShiftFault::ShortLimits)?;
        check_room(times_room, self.count_times()).map_err(ShiftFault::ShortTimes)
    }
}
