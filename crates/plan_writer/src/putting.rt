// The parts of a plan file, each put at its place.
ghost use Rattle.std.specs.Prelude.{◌≡◌, ◌+◌, ◌*◌, ◌≤◌, ◌++◌, map, length, drop};
ghost use Rattle.std.proofs.Math.Seq.{paste};
ghost use Rattle.std.specs.List.{flat_map, AllByRecursion};
ghost use Rattle.times.specs.Coding.{width_of, word_bytes};
ghost use Rattle.time_fields.specs.Kinds.{OfKind};
ghost use Rattle.plans.specs.Views.{limit_of};
ghost use Rattle.plan_contents.specs.Contents.{count_bytes, header_bytes, limit_bytes, plan_bytes, plan_length};
ghost use Rattle.plan_writer.specs.Lent.{contents_in};

use crate::sources::Source;
use files::headers::{PLAN_HEADER_LENGTH, PLAN_MARK};
use plan_records::limit_width;
use plans::Limit;
use times::Time;

impl<T: Time> Source<'_, T> {
    // The header, the names as they are, the tests and the limits.
    pub(crate) fn put(&self, file: &mut [u8])
        requires { plan_length T.Time.kind (contents_in T.Time.moment self.now) ≤ length file.old }
        ensures bytes { file.new ≡ plan_bytes T.Time.kind (contents_in T.Time.moment self.now) ++ drop (plan_length T.Time.kind (contents_in T.Time.moment self.now)) file.old }
        ensures coded { AllByRecursion (λ l. OfKind T.Time.kind l.bound) (contents_in T.Time.moment self.now).limits }
    {
        self.put_header(file);
        let names_end = PLAN_HEADER_LENGTH + self.names.len();
        file[PLAN_HEADER_LENGTH..names_end].copy_from_slice(self.names);
        let tests_end = names_end + usize::from(self.head.letters());
        file[names_end..tests_end].copy_from_slice(self.head.tests());
        put_limits(self.limits, tests_end, file);
    }

    // Mark, version of the kind, numbers of points, tests and limits, r and d.
    fn put_header(&self, file: &mut [u8])
        requires { 17 ≤ length file.old }
        ensures { file.new ≡ paste file.old 0 (header_bytes T.Time.kind (contents_in T.Time.moment self.now)) 17 }
    {
        self.put_counts(file);
        put_word(self.head.round(), 9, file);
        put_word(self.head.delay(), 13, file);
    }

    fn put_counts(&self, file: &mut [u8])
        requires { 9 ≤ length file.old }
        ensures { file.new ≡ paste file.old 0 (count_bytes T.Time.kind (contents_in T.Time.moment self.now)) 9 }
    {
        let [high, low] = T::version().to_be_bytes();
        let [many, few] = (self.limits.len() as u16).to_be_bytes();
        let [_, a, b, c] = PLAN_MARK.to_be_bytes();
        let counts = [
            a,
            b,
            c,
            high,
            low,
            self.head.points(),
            self.head.letters(),
            many,
            few,
        ];
        file[0..9].copy_from_slice(&counts);
    }
}

// The writers below take a place and the file, and no struct that moves along: its place before and after each part
// would stand in every contract.

fn put_word(word: u32, place: usize, file: &mut [u8])
    requires { place + 4 ≤ length file.old }
    ensures { file.new ≡ paste file.old place (word_bytes word) 4 }
{
    let end = place + 4;
    file[place..end].copy_from_slice(&word.to_be_bytes());
}

// The limits, one after the other, from a place on.
fn put_limits<T: Time>(limits: &[Limit<T>], place: usize, file: &mut [u8])
    requires { place + (4 + width_of T.Time.kind) * length limits.now ≤ length file.old }
    ensures bytes { file.new ≡ paste file.old place (flat_map (limit_bytes T.Time.kind) (map (limit_of T.Time.moment) limits.now)) ((4 + width_of T.Time.kind) * length limits.now) }
    ensures coded { AllByRecursion (λ l. OfKind T.Time.kind l.bound) (map (limit_of T.Time.moment) limits.now) }
{
    // Tried `zip` with `chunks_exact_mut`: after it only the length of the cut slice is known; `bytes` does not close.
    for (j, limit) in limits.iter().enumerate() {
        put_limit(*limit, place + limit_width(T::kind()) * j, file);
    }
}

fn put_limit<T: Time>(limit: Limit<T>, place: usize, file: &mut [u8])
    requires { place + (4 + width_of T.Time.kind) ≤ length file.old }
    ensures bytes { file.new ≡ paste file.old place (limit_bytes T.Time.kind (limit_of T.Time.moment limit)) (4 + width_of T.Time.kind) }
    ensures coded { OfKind T.Time.kind (T.Time.moment limit.bound) }
{
    let parts = [limit.from, limit.to, limit.wanted, limit.unwanted];
    let bound = place + 4;
    file[place..bound].copy_from_slice(&parts);
    file[bound..bound + T::width()].copy_from_slice(limit.bound.encode().as_slice());
}
