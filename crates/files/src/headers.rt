// The headers of both files.
ghost use Rattle.std.specs.Prelude.{◌≡◌};
ghost use Rattle.refusals.specs.Answers.{answer_of};
ghost use Rattle.fields.specs.Fields.{field_answer, checked, count_field, figure_field, JudgedFields};
ghost use Rattle.files.specs.Headers.{header_refusal, start, start_of, count_fields, counts_in, figure_fields, figures_in, same_count_fields, plan_fields, plan_fields_of, plan_header, plan_header_of, table_fields, table_header};

use refusals::Refusal;
use times::{Kind, bytes_at};

// The first bytes of a plan file and of a table file, as numbers.
pub const PLAN_MARK: u32 = 0x44504E;

pub const TABLE_MARK: u32 = 0x52554E;

// How many bytes the header of a plan file takes.
pub const PLAN_HEADER_LENGTH: usize = 17;

// What a plan file says before its names: the version, the numbers of points, tests and limits,
// and the figures r and d of its reaction rule.
#[derive(Clone, Copy, PartialEq, Eq, Debug)]
pub struct PlanHeader {
    pub version: Kind,
    pub points: u8,
    pub tests: u8,
    pub limits: u16,
    pub round: u32,
    pub delay: u32,
}

// Why a header is refused, with a place in its file.
#[derive(Clone, Copy, PartialEq, Eq, Debug)]
pub enum HeaderFault {
    // the file ends before a field does; its length
    Ended(usize),
    Mark,
    Version,
    // a count out of bounds, or other than the plan's
    Count(usize),
    // r or d out of bounds
    Figure(usize),
}

impl From<HeaderFault> for Refusal {
    ghost from_gives = { λ f r. r ≡ header_refusal f };

    fn from(fault: HeaderFault) -> Refusal {
        match fault {
            HeaderFault::Ended(length) => Refusal::at(1, length),
            HeaderFault::Mark => Refusal::at(2, 0),
            HeaderFault::Version => Refusal::at(3, 3),
            HeaderFault::Count(place) => Refusal::at(4, place),
            HeaderFault::Figure(place) => Refusal::at(5, place),
        }
    }
}

// The kind of a file with a mark, and the place after its version.
fn start(file: &[u8], mark: u32) -> Result<(Kind, usize), HeaderFault>
    ensures { answer_of (λ p. p) header_refusal result ≡ start file.now mark }
{
    let [a, b, c, rest @ ..] = file else {
        return Err(HeaderFault::Ended(file.len()));
    };
    if u32::from_be_bytes([0, *a, *b, *c]) != mark {
        return Err(HeaderFault::Mark);
    }
    let [high, low, rest @ ..] = rest else {
        return Err(HeaderFault::Ended(file.len()));
    };
    let Ok(kind) = Kind::try_from(u16::from_be_bytes([*high, *low])) else {
        return Err(HeaderFault::Version);
    };
    Ok((kind, file.len() - rest.len()))
}

// The place after the version of a file of one kind.
fn start_of(file: &[u8], mark: u32, kind: Kind) -> Result<usize, HeaderFault>
    ensures { answer_of (λ p. p) header_refusal result ≡ start_of file.now mark kind }
{
    let (found, place) = start(file, mark)?;
    if found != kind {
        return Err(HeaderFault::Version);
    }
    Ok(place)
}

// The readers below take the file and a place, and no struct that moves along: its place before and after each field
// would stand in every contract. Each number is read by the type of its width: one reader for all three would take
// the width, the bounds and the fault, and be no plainer.

// A count of one byte, from least to most.
fn count_at(file: &[u8], at: usize, least: u8, most: u8) -> Result<u8, HeaderFault>
    ensures { answer_of (λ x. x) header_refusal result ≡ field_answer file.now (count_field at 1 least most) }
{
    let count = *file.get(at).ok_or(HeaderFault::Ended(file.len()))?;
    if count < least || count > most {
        return Err(HeaderFault::Count(at));
    }
    Ok(count)
}

// The count of limits.
fn limits_at(file: &[u8], at: usize) -> Result<u16, HeaderFault>
    ensures { answer_of (λ x. x) header_refusal result ≡ field_answer file.now (count_field at 2 0 256) }
{
    let bytes = bytes_at(file, at).ok_or(HeaderFault::Ended(file.len()))?;
    let limits = u16::from_be_bytes(bytes);
    if limits > 256 {
        return Err(HeaderFault::Count(at));
    }
    Ok(limits)
}

// One of the figures r and d.
fn figure_at(file: &[u8], at: usize) -> Result<u32, HeaderFault>
    ensures { answer_of (λ x. x) header_refusal result ≡ field_answer file.now (figure_field at) }
{
    let bytes = bytes_at(file, at).ok_or(HeaderFault::Ended(file.len()))?;
    let figure = u32::from_be_bytes(bytes);
    if figure > 1_000_000 {
        return Err(HeaderFault::Figure(at));
    }
    Ok(figure)
}

// The numbers of points, tests and limits.
fn counts_at(file: &[u8], at: usize) -> Result<(u8, u8, u16), HeaderFault>
    ensures { answer_of (λ p. p) header_refusal result ≡ checked file.now (count_fields at) (counts_in file.now at) }
{
    let points = count_at(file, at, 1, 48)?;
    let tests = count_at(file, at + 1, 0, 6)?;
    let limits = limits_at(file, at + 2)?;
    Ok((points, tests, limits))
}

// The figures r and d.
fn figures_at(file: &[u8], at: usize) -> Result<(u32, u32), HeaderFault>
    ensures { answer_of (λ p. p) header_refusal result ≡ checked file.now (figure_fields at) (figures_in file.now at) }
{
    let round = figure_at(file, at)?;
    let delay = figure_at(file, at + 4)?;
    Ok((round, delay))
}

// What the header of a plan file says, or its first refusal.
pub fn read_plan_header(file: &[u8]) -> Result<PlanHeader, HeaderFault>
    ensures answer { answer_of (λ h. h) header_refusal result ≡ plan_header file.now }
    ensures first { JudgedFields file.now plan_fields (answer_of (λ h. h) header_refusal result) }
{
    let (version, place) = start(file, PLAN_MARK)?;
    let (points, tests, limits) = counts_at(file, place)?;
    let (round, delay) = figures_at(file, place + 4)?;
    Ok(PlanHeader {
        version,
        points,
        tests,
        limits,
        round,
        delay,
    })
}

// The same of a plan file of one version: any other is refused.
pub fn read_plan_header_of(file: &[u8], version: Kind) -> Result<PlanHeader, HeaderFault>
    ensures answer { answer_of (λ h. h) header_refusal result ≡ plan_header_of file.now version }
    ensures first { JudgedFields file.now (plan_fields_of version) (answer_of (λ h. h) header_refusal result) }
{
    let _ = start_of(file, PLAN_MARK, version)?;
    read_plan_header(file)
}

// Whether the numbers of points and tests are the plan's.
fn check_counts_at(file: &[u8], at: usize, plan: &PlanHeader) -> Result<(), HeaderFault>
    ensures { answer_of (λ u. u) header_refusal result ≡ checked file.now (same_count_fields plan.now at) tt }
{
    let _ = count_at(file, at, plan.points, plan.points)?;
    let _ = count_at(file, at + 1, plan.tests, plan.tests)?;
    Ok(())
}

// Whether the header of a table file goes with the plan's, or its first refusal.
pub fn check_table_header(file: &[u8], plan: &PlanHeader) -> Result<(), HeaderFault>
    ensures answer { answer_of (λ u. u) header_refusal result ≡ table_header file.now plan.now }
    ensures first { JudgedFields file.now (table_fields plan.now) (answer_of (λ u. u) header_refusal result) }
{
    let place = start_of(file, TABLE_MARK, plan.version)?;
    check_counts_at(file, place, plan)
}
