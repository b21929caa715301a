// Writing a plan file: all is checked before a byte is written.
ghost use Rattle.std.specs.Prelude.{◌≡◌, length};
ghost use Rattle.std.specs.Result.{IfOk};
ghost use Rattle.refusals.specs.Answers.{answer_of};
ghost use Rattle.refusals.specs.declared.Refusal.{Refusal};
ghost use Rattle.plan_contents.specs.Contents.{plan_length};
ghost use Rattle.plan_contents.specs.Trips.{ReadsBack};
ghost use Rattle.plan_contents.specs.Writings.{RefusedExactly, WriteSays, write_plan, written};
ghost use Rattle.plan_writer.specs.Faults.{write_fault};
ghost use Rattle.plan_writer.specs.Lent.{contents_in, contents_of, lent_answer};

use crate::faults::PlanWriteFault;
use crate::sources::Source;
use files::headers::PLAN_HEADER_LENGTH;
use heads::Head;
use plan_records::{check_names, limit_width};
use plans::{Limit, check_limits};
use refusals::check_room;
use times::Time;

// Writes the plan file of a head, limits and names to the front of an array, and says how long it is.
pub fn write_plan<T: Time>(
    head: &Head,
    limits: &[Limit<T>],
    names: &[u8],
    file: &mut [u8],
) -> Result<usize, PlanWriteFault>
    ensures answer { answer_of (λ n. n) write_fault result ≡ write_plan T.Time.kind (contents_of T.Time.moment head.now limits.now names.now) (length file.old) }
    ensures bytes { file.new ≡ written T.Time.kind (contents_of T.Time.moment head.now limits.now names.now) file.old }
    ensures says { WriteSays T.Time.kind (contents_of T.Time.moment head.now limits.now names.now) (length file.old) (answer_of (λ n. n) write_fault result) }
    ensures refuses { (q : Refusal) → RefusedExactly T.Time.kind (contents_of T.Time.moment head.now limits.now names.now) (length file.old) q }
    ensures back { ReadsBack T.Time.kind (contents_of T.Time.moment head.now limits.now names.now) file.new (answer_of (λ n. n) write_fault result) }
{
    let source = Source::check(head, limits, names)?;
    let length = source.length();
    check_room(file.len(), length)?;
    source.put(file);
    Ok(length)
}

impl<'a, T: Time> Source<'a, T> {
    // The parts of a plan, or the first refusal of one.
    fn check(
        head: &'a Head,
        limits: &'a [Limit<T>],
        names: &'a [u8],
    ) -> Result<Source<'a, T>, PlanWriteFault>
        ensures answer { answer_of (λ s. tt) write_fault result ≡ lent_answer (contents_of T.Time.moment head.now limits.now names.now) }
        ensures kept { IfOk result (λ s. contents_in T.Time.moment s ≡ contents_of T.Time.moment head.now limits.now names.now) }
    {
        check_limits(head, limits)?;
        check_names(names, head.points())?;
        Ok(Source {
            head,
            limits,
            names,
        })
    }

    // How long the file is.
    fn length(&self) -> usize
        ensures { result ≡ plan_length T.Time.kind (contents_in T.Time.moment self.now) }
    {
        PLAN_HEADER_LENGTH
            + self.names.len()
            + usize::from(self.head.letters())
            + limit_width(T::kind()) * self.limits.len()
    }
}
