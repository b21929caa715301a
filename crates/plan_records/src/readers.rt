// A reader of records.
ghost use Rattle.std.specs.Prelude.{◌≡◌};
ghost use Rattle.std.specs.Option.{option_map};
ghost use Rattle.refusals.specs.Answers.{answer_of};
ghost use Rattle.files.specs.Headers.{header_refusal, plan_header_of};
ghost use Rattle.plan_records.specs.Faults.{record_refusal};
ghost use Rattle.plan_records.specs.Readers.{Opened, after, next_answer, opened_header, shown};

use crate::faults::RecordFault;
use crate::sizes::Sort;
use files::headers::{HeaderFault, PLAN_HEADER_LENGTH, PlanHeader, read_plan_header_of};
use times::Kind;

// A plan file, what its header says, how many records have been read, and the place of the next.
#[derive(Clone, Copy)]
pub struct Reader<'a> {
    pub(crate) file: &'a [u8],
    pub(crate) header: PlanHeader,
    pub(crate) taken: usize,
    pub(crate) place: usize,
}

// A record, shown as its part of the file.
#[derive(Clone, Copy)]
pub enum Record<'a> {
    // a length byte, and the bytes of the name
    Name(&'a [u8]),
    // one byte
    Test(&'a [u8]),
    // two points, two sets of letters and a bound
    Limit(&'a [u8]),
}

impl<'a> Reader<'a> {
    // A reader at the first record of a plan file of this kind, or the first refusal of its header.
    pub fn open(file: &'a [u8], kind: Kind) -> Result<Reader<'a>, HeaderFault>
        ensures answer { answer_of opened_header header_refusal result ≡ plan_header_of file.now kind }
        ensures opened { Opened file.now result }
    {
        let header = read_plan_header_of(file, kind)?;
        Ok(Reader {
            file,
            header,
            taken: 0,
            place: PLAN_HEADER_LENGTH,
        })
    }

    // What the file's header says.
    pub fn header(&self) -> PlanHeader
        ensures { result ≡ self.now.header }
    {
        self.header
    }

    // Where the next record starts.
    pub fn place(&self) -> usize
        ensures { result ≡ self.now.place }
    {
        self.place
    }

    // The next record, or none after the last, or the first refusal of what stands here.
    pub fn next(&mut self) -> Result<Option<Record<'a>>, RecordFault>
        ensures answer { answer_of (option_map shown) record_refusal result ≡ next_answer self.old }
        ensures moved { self.new ≡ after self.old (next_answer self.old) }
    {
        // size and next both match the sort: a match that gave both would cut the part in each arm
        let end = self.place + self.size()?;
        let part = &self.file[self.place..end];
        let record = match self.sort() {
            Some(Sort::Name) => Record::Name(part),
            Some(Sort::Test) => Record::Test(part),
            Some(Sort::Limit) => Record::Limit(part),
            None => return Ok(None),
        };
        self.taken += 1;
        self.place = end;
        Ok(Some(record))
    }
}
