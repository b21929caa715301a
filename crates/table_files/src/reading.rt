// Reading a table file: all of it is checked before a time is stored.
ghost use Rattle.std.specs.Prelude.{◌≡◌, ◌^◌, ◌<◌, ◌≤◌, not, [], ◌∷◌, map, length, take, drop};
ghost use Rattle.refusals.specs.Answers.{answer_of, refusal_at, unless};
ghost use Rattle.plans.specs.Memory.{allowed};
ghost use Rattle.refusals.specs.Searches.{when};
ghost use Rattle.times.specs.Coding.{time_refusal};
ghost use Rattle.table_files.specs.Faults.{table_refusal};
ghost use Rattle.fields.specs.Laid.{passing};
ghost use Rattle.table_files.specs.Layouts.{time_place, table_time, row_fields, time_fields};
ghost use Rattle.table_files.specs.Readings.{Filled, ReadSays, RefusesExactly, counted, end_answer, read_table, times_in};
ghost use Rattle.table_files.specs.Trips.{Checked, ReadExactly, Ready, WritesBack};

use crate::faults::TableFault;
use crate::layout::{plan_header, time_place};
use files::headers::check_table_header;
use heads::Head;
use plans::{is_allowed, table_place, table_size};
use refusals::check_room;
use times::{Time, TimeFault};

// Fills the front of an array with the times of a table file for a head, and says how many they are.
pub fn read_table<T: Time>(file: &[u8], head: &Head, times: &mut [T]) -> Result<usize, TableFault>
    ensures answer { answer_of (λ n. n) table_refusal result ≡ counted (read_table T.Time.kind head.now file.now (length times.old)) }
    ensures filled { Filled T.Time.moment (read_table T.Time.kind head.now file.now (length times.old)) times.old times.new (answer_of (λ n. n) table_refusal result) }
    ensures says { ReadSays T.Time.kind head.now file.now (length times.old) (answer_of (λ n. n) table_refusal result) }
    ensures refuses { RefusesExactly T.Time.kind head.now file.now (length times.old) }
    ensures exact { ReadExactly T.Time.kind head.now file.now (length times.old) }
    ensures back { WritesBack T.Time.kind head.now file.now (length times.old) }
{
    let size = check_file::<T>(file, head, times.len())?;
    fill_times(file, size, times);
    Ok(size)
}

// The first refusal of a file that is read into an array of so many times, or the number of its times.
fn check_file<T: Time>(file: &[u8], head: &Head, room: usize) -> Result<usize, TableFault>
    ensures answer { answer_of (λ n. n) table_refusal result ≡ counted (read_table T.Time.kind head.now file.now room) }
    ensures known { Checked T.Time.kind head.now file.now room (answer_of (λ n. n) table_refusal result) }
    ensures ready { Ready T.Time.kind head.now file.now room (answer_of (λ n. n) table_refusal result) }
{
    check_table_header(file, &plan_header::<T>(head))?;
    let size = table_size(head);
    check_room(room, size)?;
    Source { file, head }.check_times::<T>()?;
    check_end(file, time_place::<T>(size))?;
    Ok(size)
}

// Whether a file goes no further than its last time.
// Not that of plan_records: it has another fault, and asks for a file that is too short as well.
fn check_end(file: &[u8], end: usize) -> Result<(), TableFault>
    ensures { answer_of (λ u. u) table_refusal result ≡ end_answer file.now end }
{
    if end < file.len() {
        return Err(TableFault::Trailing(end));
    }
    Ok(())
}

// The bytes of a table file, and the head of the plan that it is for.
#[derive(Drop)]
struct Source<'a> {
    file: &'a [u8],
    head: &'a Head,
}

impl Source<'_> {
    // The times, row by row.
    fn check_times<T: Time>(&self) -> Result<(), TimeFault>
        ensures { answer_of (λ u. u) time_refusal result ≡ passing self.now.file.now (time_fields T.Time.kind self.now.head.now self.now.file.now) }
    {
        (0..self.head.rows()).try_for_each(|row| self.check_row::<T>(row))
    }

    fn check_row<T: Time>(&self, row: u8) -> Result<(), TimeFault>
        ensures { answer_of (λ u. u) time_refusal result ≡ passing self.now.file.now (row_fields T.Time.kind self.now.head.now self.now.file.now row) }
    {
        (0..self.head.points()).try_for_each(|point| self.check_time::<T>(row, point))
    }

    // The time of a point in a row.
    fn check_time<T: Time>(&self, row: u8, point: u8) -> Result<(), TimeFault>
        ensures { answer_of (λ u. u) time_refusal result ≡ passing self.now.file.now (table_time T.Time.kind self.now.head.now self.now.file.now row point ∷ []) }
    {
        let number = table_place(self.head, row, point);
        let place = time_place::<T>(number);
        let time: T = T::decode(self.file, place)?;
        check_rule(point, place, time)
    }
}

// Whether the time of a point, which was read at a place, keeps its rule.
fn check_rule<T: Time>(point: u8, place: usize, time: T) -> Result<(), TimeFault>
    ensures { answer_of (λ u. u) time_refusal result ≡ unless (when (not (allowed point (T.Time.moment time))) (refusal_at 9 place)) tt }
{
    if !is_allowed(point, time) {
        return Err(TimeFault::OutOfRule(place));
    }
    Ok(())
}

// Stores the first so many times of a file.
// One function for all that fill an array would be public, and a public call has no `requires`.
fn fill_times<T: Time>(file: &[u8], size: usize, times: &mut [T])
    requires { (size < 2 ^ 32) × ((size ≤ length times.old) × (time_place T.Time.kind size ≤ length file.now)) }
    ensures front { map T.Time.moment (take size times.new) ≡ times_in T.Time.kind file.now size }
    ensures rest { drop size times.new ≡ drop size times.old }
{
    for (i, slot) in times[..size].iter_mut().enumerate() {
        let Ok(time) = T::decode(file, time_place::<T>(i)) else {
            unreachable()
        };
        *slot = time;
    }
}
