// How a run begins: the whole pair is checked and judged.
ghost use Rattle.std.specs.Prelude.{◌≡◌, IfOk};
ghost use Rattle.refusals.specs.Answers.{answer_of, given};
ghost use Rattle.plans.specs.Lent.{plan_in, table_in};
ghost use Rattle.verdicts.specs.Faults.{pair_refusal};
ghost use Rattle.verdicts.specs.Meanings.{Judged};
ghost use Rattle.offences.specs.Verdicts.{verdict};
ghost use Rattle.runs.specs.Plays.{StandsAlways};
ghost use Rattle.runs.specs.Runs.{opened, opening};

use crate::Run;
use plans::Pair;
use rules::Rule;
use sets::Set;
use times::Time;
use verdicts::{PairFault, judge};

impl Run {
    // A run of an accepted pair, or what speaks against it first.
    pub fn open<T: Time, R: Rule>(number: u32, pair: &Pair<T>, rule: &R) -> Result<Run, PairFault>
        ensures answer { answer_of (λ x. x) pair_refusal result ≡ opening (plan_in T.Time.moment pair.now) (table_in T.Time.moment pair.now) (R.Rule.sees rule.now) number }
        ensures meaning { Judged (plan_in T.Time.moment pair.now) (table_in T.Time.moment pair.now) (R.Rule.sees rule.now) (answer_of (λ _. tt) pair_refusal result) }
        ensures stands { IfOk result (StandsAlways (plan_in T.Time.moment pair.now) (table_in T.Time.moment pair.now) (R.Rule.sees rule.now) number) }
    {
        judge(pair, rule)?;
        Ok(start(number, pair, rule))
    }
}

// A run of an accepted pair, before any call.
fn start<T: Time, R: Rule>(number: u32, pair: &Pair<T>, _rule: &R) -> Run
    requires { given tt ≡ verdict (plan_in T.Time.moment pair.now) (table_in T.Time.moment pair.now) (R.Rule.sees _rule.now) }
    ensures value { result ≡ opened (plan_in T.Time.moment pair.now) number }
    ensures stands { StandsAlways (plan_in T.Time.moment pair.now) (table_in T.Time.moment pair.now) (R.Rule.sees _rule.now) number result }
{
    let none = Set::empty();
    Run {
        number,
        points: pair.head.points(),
        letters: pair.head.letters(),
        released: none,
        out: none,
        told: none,
        outcomes: none,
    }
}
