// Names, as they lie in a plan file or in a run of names.
ghost use Rattle.std.specs.Prelude.{◌≡◌, ◌+◌, ◌*◌, ◌^◌, ◌<◌, ◌≤◌, true, [], ◌∷◌, length, drop, slice_index};
ghost use Rattle.refusals.specs.Answers.{answer_of};
ghost use Rattle.fields.specs.Fields.{between, checked, field_answer};
ghost use Rattle.fields.specs.Laid.{passing};
ghost use Rattle.plan_records.specs.Faults.{record_refusal};
ghost use Rattle.fields.specs.Readings.{end_field};
ghost use Rattle.plan_records.specs.Names.{length_field, name_field, name_fields, name_place, name_size, names_fields, new_name, printable, run_fields, same_name};

use crate::faults::RecordFault;

// Whether a run of bytes is so many names and nothing more.
pub fn check_names(names: &[u8], points: u8) -> Result<(), RecordFault>
    ensures { answer_of (λ u. u) record_refusal result ≡ passing names.now (run_fields names.now points) }
{
    let end = names_end(names, points)?;
    check_end(names, end)
}

// The place after so many names.
fn names_end(names: &[u8], points: u8) -> Result<usize, RecordFault>
    ensures { answer_of (λ n. n) record_refusal result ≡ checked names.now (names_fields names.now 0 points) (name_place names.now 0 points) }
{
    let mut at = 0;
    // a fold that stops at a fault would need a function for its step, and be no plainer
    for number in 0..points {
        let name = NameAt {
            bytes: names,
            start: 0,
            number,
            at,
        };
        at += name.size()?;
    }
    Ok(at)
}

// Whether bytes go no further than a place.
pub(crate) fn check_end(bytes: &[u8], end: usize) -> Result<(), RecordFault>
    ensures { answer_of (λ u. u) record_refusal result ≡ passing bytes.now (end_field bytes.now end ∷ []) }
{
    if end > bytes.len() {
        return Err(RecordFault::Ended(bytes.len()));
    }
    if end < bytes.len() {
        return Err(RecordFault::Trailing(end));
    }
    Ok(())
}

// The byte at a place, and 0 past the end.
fn byte_at(bytes: &[u8], at: usize) -> u8
    ensures { result ≡ slice_index bytes.now at }
{
    bytes.get(at).copied().unwrap_or(0)
}

// The bytes from a place on, and none past the end.
pub(crate) fn rest_from(bytes: &[u8], at: usize) -> &[u8]
    ensures { result.now ≡ drop at bytes.now }
{
    bytes.get(at..).unwrap_or(&[])
}

// The name with a number, at a place among the names that lie one after another from a start on.
// Each method reads the length byte anew: a length handed along would need a clause in each that ties it to the byte.
#[derive(Clone, Copy)]
pub(crate) struct NameAt<'a> {
    pub(crate) bytes: &'a [u8],
    pub(crate) start: u8,
    pub(crate) number: u8,
    pub(crate) at: usize,
}

impl NameAt<'_> {
    // How many bytes the name takes, where it keeps its rules.
    pub(crate) fn size(&self) -> Result<usize, RecordFault>
        ensures { answer_of (λ n. n) record_refusal result ≡ checked self.now.bytes.now (name_fields self.now.bytes.now self.now.start self.now.number self.now.at) (name_size self.now.bytes.now self.now.at) }
    {
        let length = self.length()?;
        self.check()?;
        Ok(1 + usize::from(length))
    }

    // The length byte.
    fn length(&self) -> Result<u8, RecordFault>
        ensures { answer_of (λ x. x) record_refusal result ≡ field_answer self.now.bytes.now (length_field self.now.bytes.now self.now.at) }
    {
        let ended = RecordFault::Ended(self.bytes.len());
        let length = *self.bytes.get(self.at).ok_or(ended)?;
        if !(1..=16).contains(&length) {
            return Err(RecordFault::Name(self.at));
        }
        Ok(length)
    }

    // Whether the name is there, is printable, and is none of those before it.
    fn check(&self) -> Result<(), RecordFault>
        requires { 1 ≤ slice_index self.now.bytes.now self.now.at }
        ensures { answer_of (λ u. u) record_refusal result ≡ passing self.now.bytes.now (name_field self.now.bytes.now self.now.start self.now.number self.now.at ∷ []) }
    {
        let size = 1 + usize::from(byte_at(self.bytes, self.at));
        if rest_from(self.bytes, self.at).len() < size {
            return Err(RecordFault::Ended(self.bytes.len()));
        }
        if !self.is_printable() || !self.is_new() {
            return Err(RecordFault::Name(self.at));
        }
        Ok(())
    }

    fn is_printable(&self) -> bool
        requires { self.now.at + name_size self.now.bytes.now self.now.at ≤ length self.now.bytes.now }
        ensures { result ≡ printable self.now.bytes.now self.now.at }
    {
        let from = self.at + 1;
        let end = from + usize::from(self.bytes[self.at]);
        self.bytes[from..end].iter().all(|byte| is_visible(*byte))
    }

    // Whether none of the names before it is equal to it.
    fn is_new(&self) -> bool
        requires there { self.now.at + name_size self.now.bytes.now self.now.at ≤ length self.now.bytes.now }
        requires some { 1 ≤ slice_index self.now.bytes.now self.now.at }
        ensures { result ≡ new_name self.now.bytes.now self.now.start self.now.number self.now.at }
    {
        let mut earlier = usize::from(self.start);
        // a name's place follows from the name before it: a chain would have to carry the place along
        for _i in 0..self.number {
            if self.is_also_at(earlier) {
                return false;
            }
            earlier += 1 + usize::from(byte_at(self.bytes, earlier));
        }
        true
    }

    // Whether an earlier name is equal to it. What names seldom share is asked first, the length, the first and the last
    // byte, and then each byte up to a difference: with `starts_with` names of many lengths took twice the time.
    fn is_also_at(&self, earlier: usize) -> bool
        requires near { earlier < 2 ^ 32 }
        requires there { self.now.at + name_size self.now.bytes.now self.now.at ≤ length self.now.bytes.now }
        requires some { 1 ≤ slice_index self.now.bytes.now self.now.at }
        ensures { result ≡ same_name self.now.bytes.now earlier self.now.at }
    {
        if byte_at(self.bytes, earlier) != self.bytes[self.at] {
            return false;
        }
        if byte_at(self.bytes, earlier + 1) != self.bytes[self.at + 1] {
            return false;
        }
        let last = usize::from(self.bytes[self.at]);
        if byte_at(self.bytes, earlier + last) != self.bytes[self.at + last] {
            return false;
        }
        for j in 0..last + 1 {
            if byte_at(self.bytes, earlier + j) != self.bytes[self.at + j] {
                return false;
            }
        }
        true
    }
}

fn is_visible(byte: u8) -> bool
    ensures { result ≡ between 0x21 0x7E byte }
{
    (0x21..=0x7E).contains(&byte)
}
