// A delayed pair made into one without delay.
ghost use Rattle.std.specs.Prelude.{◌≡◌, length, take, IfOk};
ghost use Rattle.refusals.specs.Answers.{answer_of};
ghost use Rattle.heads.specs.Heads.{outline_of};
ghost use Rattle.plans.specs.Lent.{plan_in, table_in};
ghost use Rattle.plans.specs.Views.{limit_of, plan_of, table_of};
ghost use Rattle.shift_theory.specs.Lent.{delay_in, round_in};
ghost use Rattle.shift_theory.specs.Promises.{Answered, Filled, Shifted};
ghost use Rattle.shift_theory.specs.Shifts.{limits_size, shift_answer, shifted_limits, shifted_table, times_size};
ghost use Rattle.shifts.specs.Faults.{shift_fault};

use crate::checks::check_shift;
use crate::faults::ShiftFault;
use heads::Head;
use plans::{Limit, Pair};
use times::Time;

// The head of the shifted pair, with its limits and times in the fronts of two arrays, or the first refusal
// and nothing written. Where the pair is shifted, it is accepted under its delay over a rule exactly when the
// shifted pair is accepted under the rule alone.
pub fn shift<T: Time>(
    pair: &Pair<T>,
    limits: &mut [Limit<T>],
    times: &mut [T],
) -> Result<Head, ShiftFault>
    ensures answer { answer_of outline_of shift_fault result ≡ shift_answer (plan_in T.Time.moment pair.now) (table_in T.Time.moment pair.now) (delay_in pair.now) (length limits.old) (length times.old) (round_in pair.now) }
    ensures limits { Filled (limit_of T.Time.moment) (limits_size (plan_in T.Time.moment pair.now)) (shifted_limits (plan_in T.Time.moment pair.now) (delay_in pair.now)) limits.old limits.new (answer_of outline_of shift_fault result) }
    ensures times { Filled T.Time.moment (times_size (plan_in T.Time.moment pair.now)) (shifted_table (plan_in T.Time.moment pair.now) (table_in T.Time.moment pair.now) (delay_in pair.now)) times.old times.new (answer_of outline_of shift_fault result) }
    ensures meaning { Answered (plan_in T.Time.moment pair.now) (table_in T.Time.moment pair.now) (delay_in pair.now) (length limits.old) (length times.old) (round_in pair.now) (answer_of outline_of shift_fault result) }
    ensures promise { IfOk result (λ head. Shifted (plan_in T.Time.moment pair.now) (table_in T.Time.moment pair.now) (delay_in pair.now) (plan_of T.Time.moment head (take (limits_size (plan_in T.Time.moment pair.now)) limits.new)) (table_of T.Time.moment (take (times_size (plan_in T.Time.moment pair.now)) times.new))) }
{
    let kept = check_shift(pair, limits.len(), times.len())?;
    kept.fill_limits(limits);
    kept.fill_times(times);
    Ok(kept.shifted_head())
}
