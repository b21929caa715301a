// The verdict.
ghost use Rattle.std.specs.Prelude.{◌≡◌};
ghost use Rattle.std.specs.Option.{option_map};
ghost use Rattle.refusals.specs.Answers.{answer_of, unless};
ghost use Rattle.plans.specs.Lent.{plan_in, table_in};
ghost use Rattle.offences.specs.Faults.{offence_refusal};
ghost use Rattle.offences.specs.Verdicts.{verdict};
ghost use Rattle.verdicts.specs.Faults.{pair_refusal};
ghost use Rattle.verdicts.specs.Meanings.{Judged};

use crate::faults::PairFault;
use offences::Offence;
use plans::{Pair, check_pair};
use reactions::find_offence;
use rules::Rule;
use times::Time;

// Whether a table may be run for its plan under a rule, or what speaks against it first.
pub fn judge<T: Time, R: Rule>(pair: &Pair<T>, rule: &R) -> Result<(), PairFault>
    ensures answer { answer_of (λ u. u) pair_refusal result ≡ verdict (plan_in T.Time.moment pair.now) (table_in T.Time.moment pair.now) (R.Rule.sees rule.now) }
    ensures meaning { Judged (plan_in T.Time.moment pair.now) (table_in T.Time.moment pair.now) (R.Rule.sees rule.now) (answer_of (λ u. u) pair_refusal result) }
{
    check_pair(pair)?;
    answer(find_offence(pair, rule))
}

// A pair with no offence is accepted, and an offence speaks against it: an offence is what a search finds, and only here
// a fault.
fn answer(found: Option<Offence>) -> Result<(), PairFault>
    ensures { answer_of (λ u. u) pair_refusal result ≡ unless (option_map offence_refusal found) tt }
{
    match found {
        Some(offence) => Err(PairFault::Offends(offence)),
        None => Ok(()),
    }
}
