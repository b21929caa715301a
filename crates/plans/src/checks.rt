// What every call that is lent a plan and a table checks first.
ghost use Rattle.std.specs.Prelude.{◌≡◌, ◌^◌, length, nat_lt, not};
ghost use Rattle.refusals.specs.Answers.{answer_of, refusal_at, unless};
ghost use Rattle.plans.specs.Faults.{memory_fault};
ghost use Rattle.plans.specs.Lent.{plan_in, table_in};
ghost use Rattle.plans.specs.Memory.{LimitsSay, MemorySays, allowed, count_refusal, fitting, limits_refusal, many_refusal, memory_refusal, row_refusal, time_refusal, times_refusal};
ghost use Rattle.refusals.specs.Searches.{or_else, when};
ghost use Rattle.plans.specs.Views.{plan_of};
ghost use Rattle.times.specs.Moments.{bound_rule};

use crate::faults::MemoryFault;
use crate::limits::Limit;
use crate::pairs::{Pair, table_place, table_size};
use heads::Head;
use time_rules::{is_at_zero, is_bound, is_table_time};
use times::Time;

// Whether a plan and a table keep the rules of memory, or the first that is broken.
pub fn check_pair<T: Time>(pair: &Pair<T>) -> Result<(), MemoryFault>
    ensures answer { answer_of (λ u. u) memory_fault result ≡ unless (memory_refusal (plan_in T.Time.moment pair.now) (table_in T.Time.moment pair.now)) tt }
    ensures says { MemorySays (plan_in T.Time.moment pair.now) (table_in T.Time.moment pair.now) (answer_of (λ u. u) memory_fault result) }
{
    check_limit_count(pair.limits)?;
    check_time_count(pair)?;
    check_each_limit(pair.head, pair.limits)?;
    check_times(pair)
}

// Whether limits keep the rules of memory beside a head, or the first that is broken.
pub fn check_limits<'a, T: Time>(head: &'a Head, limits: &'a [Limit<T>]) -> Result<(), MemoryFault>
    ensures answer { answer_of (λ u. u) memory_fault result ≡ unless (or_else (many_refusal (plan_of T.Time.moment head.now limits.now)) (limits_refusal (plan_of T.Time.moment head.now limits.now))) tt }
    ensures says { LimitsSay (plan_of T.Time.moment head.now limits.now) (answer_of (λ u. u) memory_fault result) }
{
    check_limit_count(limits)?;
    check_each_limit(head, limits)
}

fn check_limit_count<T: Time>(limits: &[Limit<T>]) -> Result<(), MemoryFault>
    ensures { answer_of (λ u. u) memory_fault result ≡ unless (when (nat_lt 256 (length limits.now)) (refusal_at 4 0)) tt }
{
    if limits.len() > 256 {
        return Err(MemoryFault::ManyLimits);
    }
    Ok(())
}

// There is a time for each point in each row.
fn check_time_count<T: Time>(pair: &Pair<T>) -> Result<(), MemoryFault>
    ensures { answer_of (λ u. u) memory_fault result ≡ unless (count_refusal (plan_in T.Time.moment pair.now) (table_in T.Time.moment pair.now)) tt }
{
    if pair.times.len() != table_size(pair.head) {
        return Err(MemoryFault::CountOfTimes);
    }
    Ok(())
}

fn check_each_limit<T: Time>(head: &Head, limits: &[Limit<T>]) -> Result<(), MemoryFault>
    ensures { answer_of (λ u. u) memory_fault result ≡ unless (limits_refusal (plan_of T.Time.moment head.now limits.now)) tt }
{
    limits
        .iter()
        .enumerate()
        .try_for_each(|(j, limit)| check_limit(head, j, *limit))
}

// The limit with a number: its points and its letters, then its bound.
fn check_limit<T: Time>(head: &Head, j: usize, limit: Limit<T>) -> Result<(), MemoryFault>
    ensures { answer_of (λ u. u) memory_fault result ≡ unless (or_else (when (not (fitting head.now.points (2 ^ head.now.letters) limit)) (refusal_at 8 j)) (when (not (bound_rule (T.Time.moment limit.bound))) (refusal_at 9 j))) tt }
{
    if !is_fitting(head.points(), head.letters(), limit) {
        return Err(MemoryFault::Limit(j));
    }
    if !is_bound(limit.bound) {
        return Err(MemoryFault::Bound(j));
    }
    Ok(())
}

// Whether a limit names points and letters that are there, and no letter both ways.
pub fn is_fitting<T: Copy>(points: u8, letters: u8, limit: Limit<T>) -> bool
    ensures { result ≡ fitting points (2 ^ letters) limit }
{
    limit.from < points
        && limit.to < points
        && is_set_of(limit.wanted, letters)
        && is_set_of(limit.unwanted, letters)
        && limit.wanted & limit.unwanted == 0
}

// Whether a set of bits has only letters below a number.
fn is_set_of(set: u8, letters: u8) -> bool
    ensures { result ≡ nat_lt set (2 ^ letters) }
{
    letters >= 8 || set < 1 << letters
}

fn check_times<T: Time>(pair: &Pair<T>) -> Result<(), MemoryFault>
    ensures { answer_of (λ u. u) memory_fault result ≡ unless (times_refusal (plan_in T.Time.moment pair.now) (table_in T.Time.moment pair.now)) tt }
{
    (0..pair.head.rows()).try_for_each(|row| check_row(pair, row))
}

fn check_row<T: Time>(pair: &Pair<T>, row: u8) -> Result<(), MemoryFault>
    ensures { answer_of (λ u. u) memory_fault result ≡ unless (row_refusal (plan_in T.Time.moment pair.now) (table_in T.Time.moment pair.now) row) tt }
{
    (0..pair.head.points()).try_for_each(|point| check_time(pair, row, point))
}

fn check_time<T: Time>(pair: &Pair<T>, row: u8, point: u8) -> Result<(), MemoryFault>
    ensures { answer_of (λ u. u) memory_fault result ≡ unless (time_refusal (plan_in T.Time.moment pair.now) (table_in T.Time.moment pair.now) row point) tt }
{
    if !is_allowed(point, pair.time(row, point)) {
        return Err(MemoryFault::Time(table_place(pair.head, row, point)));
    }
    Ok(())
}

// Whether a time keeps the rule of a table, and stands at zero if it is the start's.
pub fn is_allowed<T: Time>(point: u8, time: T) -> bool
    ensures { result ≡ allowed point (T.Time.moment time) }
{
    is_table_time(time) && (point != 0 || is_at_zero(time))
}
