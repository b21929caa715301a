// What can be said of two files by their headers alone. Until the whole judgement stands, this is
// all that the program says, and it is no verdict.
ghost use Rattle.std.specs.Prelude.{◌≡◌, ◌≤◌, length, IfOk};
ghost use Rattle.refusals.specs.Answers.{answer_of};
ghost use Rattle.refusals.specs.Rooms.{no_room_refusal};
ghost use Rattle.judge.specs.Lines.{room_answer, with_line, DecimalsReadBack};
ghost use Rattle.judge.specs.Interim.{agreement_of, headers_agreement, Judged, line_of, refused_line};
ghost use Rattle.files.specs.Headers.{header_refusal};

use crate::lines::{Line, copy_line, put, put_decimal};
use files::headers::{HeaderFault, check_table_header, read_plan_header};
use refusals::{NoRoom, Refusal};

// Which file's header is refused, and why.
#[derive(Clone, Copy, PartialEq, Eq, Debug)]
pub enum HeadersFault {
    Plan(HeaderFault),
    Table(HeaderFault),
}

// Whether the headers of a plan file and a table file go together: the plan's first, then the table's.
pub fn judge_headers(plan: &[u8], table: &[u8]) -> Result<(), HeadersFault>
    ensures answer { agreement_of result ≡ headers_agreement plan.now table.now }
    ensures first { Judged plan.now table.now (agreement_of result) }
{
    let header = read_plan_header(plan).map_err(HeadersFault::Plan)?;
    check_table_header(table, &header).map_err(HeadersFault::Table)
}

// The line of a refused header.
fn refused_line(fault: HeaderFault, file: &[u8]) -> Line
    requires { length file.now ≤ 7 }
    ensures { result.items ≡ refused_line (header_refusal fault) file.now }
{
    let refusal = Refusal::from(fault);
    let mut line = Line::new();
    put(&mut line, b"headers refused ");
    put_decimal(&mut line, usize::from(refusal.number));
    put(&mut line, file);
    put_decimal(&mut line, refusal.first);
    put(&mut line, b"\n");
    line
}

// The line of an answer.
fn line_of(answer: Result<(), HeadersFault>) -> Line
    ensures { result.items ≡ line_of (agreement_of answer) }
{
    match answer {
        Ok(()) => {
            let mut line = Line::new();
            put(&mut line, b"headers agree\n");
            line
        }
        Err(HeadersFault::Plan(fault)) => refused_line(fault, b" plan "),
        Err(HeadersFault::Table(fault)) => refused_line(fault, b" table "),
    }
}

// The line on the headers of both files, at the front of `out`; its length.
pub fn write_headers_line(plan: &[u8], table: &[u8], out: &mut [u8]) -> Result<usize, NoRoom>
    ensures answer { answer_of (λ n. n) no_room_refusal result ≡ room_answer (line_of (headers_agreement plan.now table.now)) out.old }
    ensures after { out.new ≡ with_line (line_of (headers_agreement plan.now table.now)) out.old }
    ensures within { IfOk result (λ n. n ≤ length out.old) }
    ensures decimals { DecimalsReadBack }
{
    let line = line_of(judge_headers(plan, table));
    copy_line(line.as_slice(), out)
}
