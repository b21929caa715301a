// The bytes of a coded time.
ghost use Rattle.std.specs.Prelude.{◌≡◌};
ghost use Rattle.refusals.specs.Answers.{answer_of};
ghost use Rattle.times.specs.Coding.{coded_bytes, part_at, signed_field, time_refusal};

use crate::faults::TimeFault;

// The bytes by value: four of ticks, or four of ticks and four of grains.
#[derive(Clone, Copy)]
pub enum Coded {
    Four([u8; 4]),
    Eight([u8; 8]),
}

impl Coded {
    pub fn as_slice(&self) -> &[u8]
        ensures { result.now ≡ coded_bytes self.now }
    {
        match self {
            Coded::Four(bytes) => bytes,
            Coded::Eight(bytes) => bytes,
        }
    }
}

// So many bytes of a file from a place on, or none where it ends before.
// The length is asked for before the file is cut: with `file.get(at..)?` a loop over a table's times took twice the time.
pub fn bytes_at<const N: usize>(file: &[u8], at: usize) -> Option<[u8; N]>
    ensures { result ≡ part_at file.now at N }
{
    if at > file.len() || file.len() - at < N {
        return None;
    }
    file[at..].first_chunk().copied()
}

// The integer of a file whose first byte is at a place.
pub fn signed_at(file: &[u8], at: usize) -> Result<i32, TimeFault>
    ensures { answer_of (λ z. z) time_refusal result ≡ signed_field file.now at }
{
    let bytes = bytes_at(file, at).ok_or(TimeFault::Ended(file.len()))?;
    Ok(i32::from_be_bytes(bytes))
}
