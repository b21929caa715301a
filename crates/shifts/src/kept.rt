// A pair that keeps the rules of memory.
ghost use Rattle.std.specs.Prelude.{◌≡◌, ℕ, ◌≤◌, true, length, slice_index_or};
ghost use Rattle.times.specs.Moments.{table_rule};
ghost use Rattle.plans.specs.Lent.{table_in};
ghost use Rattle.plans.specs.Plans.{origin};

use plans::{MemoryFault, Pair, check_pair};
use times::Time;

// A pair of at most 256 limits, each of whose times keeps the rule of a table.
#[derive(Drop)]
pub(crate) struct KeptPair<'a, T: Time> {
    pub(crate) pair: Pair<'a, T>,
    ghost few: { length pair.limits.now ≤ 256 },
    ghost timed: { (at : ℕ) → table_rule (slice_index_or (table_in T.Time.moment pair) at origin) ≡ true },
}

impl<'a, T: Time> KeptPair<'a, T> {
    ghost use Rattle.refusals.specs.Answers.{answer_of, unless};
    ghost use Rattle.plans.specs.Faults.{memory_fault};
    ghost use Rattle.plans.specs.Lent.{plan_in};
    ghost use Rattle.plans.specs.Memory.{memory_refusal};

    // The pair, or the first rule of memory that it breaks.
    pub(crate) fn new(pair: &Pair<'a, T>) -> Result<KeptPair<'a, T>, MemoryFault>
        ensures { answer_of (λ kept. kept.pair) memory_fault result ≡ unless (memory_refusal (plan_in T.Time.moment pair.now) (table_in T.Time.moment pair.now)) pair.now }
    {
        check_pair(pair)?;
        Ok(KeptPair { pair: *pair })
    }
}
