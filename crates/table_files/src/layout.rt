// Where the fields of a table file lie.
ghost use Rattle.std.specs.Prelude.{◌≡◌, ◌^◌, ◌<◌};
ghost use Rattle.files.specs.Headers.{table_fields};
ghost use Rattle.table_files.specs.Layouts.{header_fields, time_place};

use files::headers::PlanHeader;
use heads::Head;
use times::Time;

// The place of the time with a number. That of the first time that is not there is the file's length.
// The bound stays a `requires`: each caller knows it of another number, and a type for such a number is no plainer.
pub(crate) fn time_place<T: Time>(number: usize) -> usize
    requires { number < 2 ^ 32 }
    ensures { result ≡ time_place T.Time.kind number }
{
    7 + T::width() * number
}

// What the header of a plan file says that a table file's has to agree with.
pub(crate) fn plan_header<T: Time>(head: &Head) -> PlanHeader
    ensures { table_fields result ≡ header_fields T.Time.kind head.now }
{
    PlanHeader {
        version: T::kind(),
        points: head.points(),
        tests: head.letters(),
        limits: 0,
        round: head.round(),
        delay: head.delay(),
    }
}
