// All of a plan file is checked before anything is stored.
ghost use Rattle.std.specs.Prelude.{◌≡◌};
ghost use Rattle.refusals.specs.Answers.{answer_of};
ghost use Rattle.plan_contents.specs.Readings.{limit_count, read_plan};
ghost use Rattle.plan_reader.specs.Checks.{Checked};
ghost use Rattle.plan_reader.specs.Faults.{plan_refusal};

use crate::faults::PlanFault;
use crate::records::Records;
use files::headers::PlanHeader;
use refusals::check_room;
use times::Time;

// The first refusal of a file that is read into an array of so many limits, or what its header says.
pub(crate) fn check_file<T: Time>(file: &[u8], room: usize) -> Result<PlanHeader, PlanFault>
    ensures answer { answer_of (λ h. h.limits) plan_refusal result ≡ limit_count (read_plan T.Time.kind file.now room) }
    ensures known { Checked T.Time.kind file.now room result }
{
    let records = Records::open(file, T::kind())?;
    let header = records.header();
    check_room(room, usize::from(header.limits))?;
    records.check()?;
    Ok(header)
}
