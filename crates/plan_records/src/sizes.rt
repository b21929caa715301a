// How many bytes the next record of a reader takes.
ghost use Rattle.std.specs.Prelude.{◌≡◌, ◌<◌, [], ◌∷◌};
ghost use Rattle.refusals.specs.Answers.{answer_of};
ghost use Rattle.fields.specs.Fields.{checked};
ghost use Rattle.fields.specs.Laid.{passing};
ghost use Rattle.plan_records.specs.Faults.{record_refusal};
ghost use Rattle.plan_records.specs.Names.{name_fields, name_size};
ghost use Rattle.plan_records.specs.Records.{a_limit, a_test, fields_of, first_place, fitting_field, limit_width, size_of, sort_of};
ghost use Rattle.plan_records.specs.Sorts.{meant};

use crate::bounds::check_bound;
use crate::faults::RecordFault;
use crate::names::{NameAt, check_end, rest_from};
use crate::readers::Reader;
use files::headers::PLAN_HEADER_LENGTH;
use heads::is_test;
use plans::{Limit, is_fitting};
use times::Kind;

// What a record is.
#[derive(Clone, Copy, PartialEq, Eq, Debug)]
pub(crate) enum Sort {
    Name,
    Test,
    Limit,
}

// How many bytes a limit takes in a file: two points, two sets of letters and a bound.
pub fn limit_width(kind: Kind) -> usize
    ensures { result ≡ limit_width kind }
{
    4 + kind.width()
}

impl Reader<'_> {
    // What the next record is, or none after the last.
    pub(crate) fn sort(&self) -> Option<Sort>
        ensures { meant result ≡ sort_of self.now.header self.now.taken }
    {
        let names = usize::from(self.header.points);
        let tests = names + usize::from(self.header.tests);
        if self.taken < names {
            return Some(Sort::Name);
        }
        if self.taken < tests {
            return Some(Sort::Test);
        }
        if self.taken < tests + usize::from(self.header.limits) {
            return Some(Sort::Limit);
        }
        None
    }

    // How many bytes it takes, where it keeps its rules.
    pub(crate) fn size(&self) -> Result<usize, RecordFault>
        ensures { answer_of (λ n. n) record_refusal result ≡ checked self.now.file.now (fields_of self.now.header self.now.file.now (sort_of self.now.header self.now.taken) self.now.taken self.now.place) (size_of self.now.header self.now.file.now (sort_of self.now.header self.now.taken) self.now.place) }
    {
        match self.sort() {
            Some(Sort::Name) => self.name_size(),
            Some(Sort::Test) => self.test_size(),
            Some(Sort::Limit) => self.limit_size(),
            None => {
                check_end(self.file, self.place)?;
                Ok(0)
            }
        }
    }

    fn name_size(&self) -> Result<usize, RecordFault>
        requires { self.now.taken < self.now.header.points }
        ensures { answer_of (λ n. n) record_refusal result ≡ checked self.now.file.now (name_fields self.now.file.now first_place self.now.taken self.now.place) (name_size self.now.file.now self.now.place) }
    {
        let name = NameAt {
            bytes: self.file,
            start: PLAN_HEADER_LENGTH as u8,
            number: self.taken as u8,
            at: self.place,
        };
        name.size()
    }

    fn test_size(&self) -> Result<usize, RecordFault>
        ensures { answer_of (λ n. n) record_refusal result ≡ checked self.now.file.now (fields_of self.now.header self.now.file.now a_test self.now.taken self.now.place) 1 }
    {
        if self.place >= self.file.len() {
            return Err(RecordFault::Ended(self.file.len()));
        }
        let i = self.taken.saturating_sub(usize::from(self.header.points));
        let tests = rest_from(self.file, self.place.saturating_sub(i));
        if !is_test(self.header.points, tests, i) {
            return Err(RecordFault::Test(self.place));
        }
        Ok(1)
    }

    fn limit_size(&self) -> Result<usize, RecordFault>
        ensures { answer_of (λ n. n) record_refusal result ≡ checked self.now.file.now (fields_of self.now.header self.now.file.now a_limit 0 self.now.place) (size_of self.now.header self.now.file.now a_limit self.now.place) }
    {
        self.check_fitting()?;
        check_bound(self.file, &self.header, self.place + 4)?;
        Ok(limit_width(self.header.version))
    }

    // Whether the points and letters of the limit are those of the plan.
    fn check_fitting(&self) -> Result<(), RecordFault>
        ensures { answer_of (λ u. u) record_refusal result ≡ passing self.now.file.now (fitting_field self.now.header self.now.file.now self.now.place ∷ []) }
    {
        let [from, to, wanted, unwanted, ..] = *rest_from(self.file, self.place) else {
            return Err(RecordFault::Ended(self.file.len()));
        };
        let limit = Limit {
            from,
            to,
            wanted,
            unwanted,
            bound: (),
        };
        if !is_fitting(self.header.points, self.header.tests, limit) {
            return Err(RecordFault::Limit(self.place));
        }
        Ok(())
    }
}
