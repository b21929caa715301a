// The records of a plan file, read from the first one on.
ghost use Rattle.std.specs.Prelude.{◌≡◌, ◌≤◌};
ghost use Rattle.std.specs.Result.{IfOk};
ghost use Rattle.refusals.specs.Answers.{answer_of};
ghost use Rattle.fields.specs.Fields.{checked};
ghost use Rattle.fields.specs.Laid.{laid, passing};
ghost use Rattle.files.specs.Headers.{header_refusal, plan_header_of};
ghost use Rattle.plan_records.specs.Faults.{record_refusal};
ghost use Rattle.plan_records.specs.Readers.{stood};
ghost use Rattle.plan_records.specs.Records.{first_place, record_count, record_fields, record_place};
ghost use Rattle.plan_reader.specs.Checks.{all_fields};

use files::headers::{HeaderFault, PlanHeader};
use plan_records::{Reader, RecordFault};
use times::Kind;

// A reader that has read no record.
#[derive(Clone, Copy)]
pub(crate) struct Records<'a> {
    reader: Reader<'a>,
    ghost none: { reader.taken ≡ 0 },
    ghost first: { reader.place ≡ first_place },
}

impl<'a> Records<'a> {
    // Those of a plan file of this kind, or the first refusal of its header.
    pub(crate) fn open(file: &'a [u8], kind: Kind) -> Result<Records<'a>, HeaderFault>
        ensures answer { answer_of (λ r. r.reader.header) header_refusal result ≡ plan_header_of file.now kind }
        ensures same { IfOk result (λ r. r.reader.file.now ≡ file.now) }
    {
        let reader = Reader::open(file, kind)?;
        Ok(Records { reader })
    }

    pub(crate) fn header(&self) -> PlanHeader
        ensures { result ≡ self.now.reader.header }
    {
        self.reader.header()
    }

    // All of them, and then the end.
    pub(crate) fn check(&self) -> Result<(), RecordFault>
        ensures { answer_of (λ u. u) record_refusal result ≡ passing self.now.reader.file.now (all_fields self.now.reader.header self.now.reader.file.now) }
    {
        let mut end = self.pass(self.count())?;
        end.next()?;
        Ok(())
    }

    // How many there are.
    fn count(&self) -> usize
        ensures { result ≡ record_count self.now.reader.header }
    {
        let header = self.header();
        usize::from(header.points) + usize::from(header.tests) + usize::from(header.limits)
    }

    // Where so many of them end.
    pub(crate) fn place_after(&self, count: usize) -> Result<usize, RecordFault>
        requires { count ≤ record_count self.now.reader.header }
        ensures { answer_of (λ n. n) record_refusal result ≡ checked self.now.reader.file.now (laid count (record_fields self.now.reader.header self.now.reader.file.now)) (record_place self.now.reader.header self.now.reader.file.now count) }
    {
        Ok(self.pass(count)?.place())
    }

    // The reader past so many of them.
    fn pass(&self, count: usize) -> Result<Reader<'a>, RecordFault>
        requires { count ≤ record_count self.now.reader.header }
        ensures { answer_of (λ q. q) record_refusal result ≡ checked self.now.reader.file.now (laid count (record_fields self.now.reader.header self.now.reader.file.now)) (stood self.now.reader count) }
    {
        let mut reader = self.reader;
        // no plainer as a chain: its closure would change the reader that is handed out
        for _i in 0..count {
            reader.next()?;
        }
        Ok(reader)
    }
}
