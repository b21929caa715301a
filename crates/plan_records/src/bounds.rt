// The bound of a limit, whose kind follows from the file's version.
ghost use Rattle.std.specs.Prelude.{◌≡◌, [], ◌∷◌};
ghost use Rattle.refusals.specs.Answers.{answer_of};
ghost use Rattle.fields.specs.Laid.{passing};
ghost use Rattle.times.specs.Coding.{time_at, time_refusal, width_of};
ghost use Rattle.times.specs.Moments.{bound_rule};
ghost use Rattle.plan_records.specs.Records.{bound_field};

use files::headers::PlanHeader;
use fine::Fine;
use time_rules::is_bound;
use times::{Kind, Time, TimeFault};
use whole::Whole;

// Whether the bound at a place is there and keeps its rule.
// The kind comes from the file, so a match picks the type; a type parameter could not.
pub(crate) fn check_bound(file: &[u8], header: &PlanHeader, at: usize) -> Result<(), TimeFault>
    ensures { answer_of (λ u. u) time_refusal result ≡ passing file.now (bound_field header.now file.now at ∷ []) }
{
    match header.version {
        Kind::Whole => check_bound_of::<Whole>(file, at),
        Kind::Fine => check_bound_of::<Fine>(file, at),
    }
}

fn check_bound_of<T: Time>(file: &[u8], at: usize) -> Result<(), TimeFault>
    ensures { answer_of (λ u. u) time_refusal result ≡ passing file.now (record { from = at; width = width_of T.Time.kind; number = 9; keeps = λ _. bound_rule (time_at T.Time.kind file.now at) } ∷ []) }
{
    let bound: T = T::decode(file, at)?;
    if !is_bound(bound) {
        return Err(TimeFault::OutOfRule(at));
    }
    Ok(())
}
