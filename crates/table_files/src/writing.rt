// Writing a table file: all is checked before a byte is written.
ghost use Rattle.std.specs.Prelude.{◌≡◌, ◌+◌, ◌*◌, ◌^◌, ◌<◌, ◌≤◌, map, length};
ghost use Rattle.std.proofs.Math.Seq.{paste};
ghost use Rattle.std.specs.List.{flat_map, AllByRecursion};
ghost use Rattle.refusals.specs.Answers.{answer_of, unless};
ghost use Rattle.times.specs.Coding.{time_bytes, width_of};
ghost use Rattle.plans.specs.Faults.{memory_fault};
ghost use Rattle.plans.specs.Memory.{MemorySays, memory_refusal};
ghost use Rattle.time_fields.specs.Kinds.{OfKind};
ghost use Rattle.table_files.specs.Faults.{write_fault};
ghost use Rattle.table_files.specs.Layouts.{time_place};
ghost use Rattle.table_files.specs.Trips.{ReadsBack};
ghost use Rattle.table_files.specs.Writings.{WriteSays, bare, header_bytes, write_table, written};

use crate::faults::WriteFault;
use crate::layout::time_place;
use files::headers::TABLE_MARK;
use heads::Head;
use plans::{MemoryFault, Pair, check_pair};
use refusals::check_room;
use times::Time;

// Writes the table file of these times to the front of an array, and says how long it is.
pub fn write_table<T: Time>(head: &Head, times: &[T], file: &mut [u8]) -> Result<usize, WriteFault>
    ensures answer { answer_of (λ n. n) write_fault result ≡ write_table T.Time.kind head.now (map T.Time.moment times.now) (length file.old) }
    ensures bytes { file.new ≡ written T.Time.kind head.now (map T.Time.moment times.now) file.old }
    ensures says { WriteSays T.Time.kind head.now (map T.Time.moment times.now) (length file.old) (answer_of (λ n. n) write_fault result) }
    ensures back { ReadsBack T.Time.kind head.now (map T.Time.moment times.now) file.new (answer_of (λ n. n) write_fault result) }
{
    check_memory(head, times)?;
    let length = time_place::<T>(times.len());
    check_room(file.len(), length)?;
    put_header::<T>(head, file);
    put_times(times, file);
    Ok(length)
}

// Whether there is a time for each point in each row, and each keeps its rule.
fn check_memory<'a, T: Time>(head: &'a Head, times: &'a [T]) -> Result<(), MemoryFault>
    ensures answer { answer_of (λ u. u) memory_fault result ≡ unless (memory_refusal (bare head.now) (map T.Time.moment times.now)) tt }
    ensures says { MemorySays (bare head.now) (map T.Time.moment times.now) (answer_of (λ u. u) memory_fault result) }
{
    check_pair(&Pair {
        head,
        limits: &[],
        times,
    })
}

// The mark, the version of the kind, and the numbers of points and tests.
fn put_header<T: Time>(head: &Head, file: &mut [u8])
    requires { 7 ≤ length file.old }
    ensures { file.new ≡ paste file.old 0 (header_bytes T.Time.kind head.now) 7 }
{
    let [high, low] = T::version().to_be_bytes();
    let [_, a, b, c] = TABLE_MARK.to_be_bytes();
    let bytes = [a, b, c, high, low, head.points(), head.letters()];
    file[0..7].copy_from_slice(&bytes);
}

// The times, one after the other.
fn put_times<T: Time>(times: &[T], file: &mut [u8])
    requires { (length times.now < 2 ^ 32) × (time_place T.Time.kind (length times.now) ≤ length file.old) }
    ensures bytes { file.new ≡ paste file.old 7 (flat_map (time_bytes T.Time.kind) (map T.Time.moment times.now)) (width_of T.Time.kind * length times.now) }
    ensures coded { AllByRecursion (OfKind T.Time.kind) (map T.Time.moment times.now) }
{
    // Tried `zip` with `chunks_exact_mut`: after it only the length of the cut slice is known; `bytes` does not close.
    for (i, time) in times.iter().enumerate() {
        let place = time_place::<T>(i);
        file[place..place + T::width()].copy_from_slice(time.encode().as_slice());
    }
}
