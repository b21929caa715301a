// Finding the first limit offence.
ghost use Rattle.std.specs.Prelude.{◌≡◌};
ghost use Rattle.std.specs.Option.{option_map};
ghost use Rattle.plans.specs.Lent.{plan_in, table_in};
ghost use Rattle.plans.specs.Plans.{applies, keeps};
ghost use Rattle.plans.specs.Views.{limit_of};
ghost use Rattle.offences.specs.Faults.{offence_refusal};
ghost use Rattle.offences.specs.Verdicts.{break_in, breaks_limit, first_break};

use crate::faults::Offence;
use plans::{Limit, Pair};
use times::Time;

// The first limit offence, by row and then by limit.
// An `Option`, here and in all searches: an offence is what is looked for, and no fault of the call.
pub fn find_break<T: Time>(pair: &Pair<T>) -> Option<Offence>
    ensures { option_map offence_refusal result ≡ first_break (plan_in T.Time.moment pair.now) (table_in T.Time.moment pair.now) }
{
    (0..pair.head.rows()).find_map(|row| break_in(pair, row))
}

fn break_in<T: Time>(pair: &Pair<T>, row: u8) -> Option<Offence>
    ensures { option_map offence_refusal result ≡ break_in (plan_in T.Time.moment pair.now) (table_in T.Time.moment pair.now) row }
{
    pair.limits
        .iter()
        .position(|limit| does_break(pair, row, *limit))
        .map(|limit| Offence::Limit { row, limit })
}

// Whether a limit applies in a row and is not kept there.
// Pair and row go along one by one: a struct of both would be made anew for each row, and be no plainer.
fn does_break<T: Time>(pair: &Pair<T>, row: u8, limit: Limit<T>) -> bool
    ensures { result ≡ breaks_limit (plan_in T.Time.moment pair.now) (table_in T.Time.moment pair.now) row (limit_of T.Time.moment limit) }
{
    is_applying(limit, row) && !is_kept(pair, row, limit)
}

fn is_kept<T: Time>(pair: &Pair<T>, row: u8, limit: Limit<T>) -> bool
    ensures { result ≡ keeps (plan_in T.Time.moment pair.now) (table_in T.Time.moment pair.now) row (limit_of T.Time.moment limit) }
{
    let from = pair.time(row, limit.from);
    let to = pair.time(row, limit.to);
    from.is_within(to, limit.bound)
}

// Whether a row has all letters of a limit as wanted.
fn is_applying<T: Time>(limit: Limit<T>, row: u8) -> bool
    ensures { result ≡ applies (limit_of T.Time.moment limit) row }
{
    row & limit.wanted == limit.wanted && row & limit.unwanted == 0
}
