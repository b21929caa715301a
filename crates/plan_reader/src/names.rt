// The names of a plan file, through the reader of its records.
ghost use Rattle.std.specs.Prelude.{◌≡◌, ◌-◌, ◌≤◌, length};
ghost use Rattle.std.specs.Option.{option_map};
ghost use Rattle.refusals.specs.Answers.{answer_of};
ghost use Rattle.plan_records.specs.Records.{part_from};
ghost use Rattle.plan_contents.specs.Named.{name_answer, names_answer};
ghost use Rattle.plan_reader.specs.Faults.{plan_refusal};

use crate::faults::PlanFault;
use crate::records::Records;
use files::headers::PLAN_HEADER_LENGTH;
use times::Kind;

// The run of names of a plan file, as its part of the file.
pub fn read_names(file: &[u8], kind: Kind) -> Result<&[u8], PlanFault>
    ensures { answer_of (λ x. x.now) plan_refusal result ≡ names_answer file.now kind }
{
    let records = Records::open(file, kind)?;
    let points = usize::from(records.header().points);
    let end = records.place_after(points)?;
    Ok(part(file, PLAN_HEADER_LENGTH, end))
}

// The name of a point, without its length byte, or none where the plan has no such point.
pub fn read_name(file: &[u8], kind: Kind, point: u8) -> Result<Option<&[u8]>, PlanFault>
    ensures { answer_of (option_map (λ x. x.now)) plan_refusal result ≡ name_answer file.now kind point }
{
    let records = Records::open(file, kind)?;
    if point >= records.header().points {
        return Ok(None);
    }
    let from = records.place_after(usize::from(point))?;
    let end = records.place_after(usize::from(point) + 1)?;
    Ok(Some(part(file, from + 1, end)))
}

fn part(file: &[u8], from: usize, end: usize) -> &[u8]
    requires { (from ≤ end) × (end ≤ length file.now) }
    ensures { result.now ≡ part_from file.now from (end - from) }
{
    &file[from..end]
}
