// Reading a plan file.
ghost use Rattle.std.specs.Prelude.{◌≡◌, length};
ghost use Rattle.refusals.specs.Answers.{answer_of};
ghost use Rattle.plan_contents.specs.Readings.{Filled, PlanSays, RefusesExactly, limit_count, names_in, read_plan};
ghost use Rattle.plan_contents.specs.Trips.{ReadExactly, WritesBack};
ghost use Rattle.plan_reader.specs.Faults.{plan_refusal};

use crate::checks::check_file;
use crate::faults::PlanFault;
use crate::filling::{fill_limits, head_at};
use heads::Head;
use plan_records::limit_width;
use plans::Limit;
use times::Time;

// Fills a head and the front of an array with what a plan file holds, and says how many limits there are.
pub fn read_plan<T: Time>(
    file: &[u8],
    head: &mut Head,
    limits: &mut [Limit<T>],
) -> Result<usize, PlanFault>
    ensures answer { answer_of (λ n. n) plan_refusal result ≡ limit_count (read_plan T.Time.kind file.now (length limits.old)) }
    ensures filled { Filled T.Time.moment (names_in file.now) (read_plan T.Time.kind file.now (length limits.old)) head.old head.new limits.old limits.new (answer_of (λ n. n) plan_refusal result) }
    ensures says { PlanSays T.Time.kind file.now (length limits.old) (answer_of (λ n. n) plan_refusal result) }
    ensures refuses { RefusesExactly T.Time.kind file.now (length limits.old) }
    ensures exact { ReadExactly T.Time.kind file.now (length limits.old) }
    ensures back { WritesBack T.Time.kind file.now (length limits.old) }
{
    let header = check_file::<T>(file, limits.len())?;
    let count = usize::from(header.limits);
    let first = file.len() - limit_width(T::kind()) * count;
    let tests = first - usize::from(header.tests);
    *head = head_at(file, &header, tests);
    fill_limits(file, first, count, limits);
    Ok(count)
}
