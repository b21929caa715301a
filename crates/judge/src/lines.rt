// A line of text, put together from pieces, and its copy in a lent slice.
ghost use Rattle.std.specs.Prelude.{◌≡◌, ◌+◌, ◌++◌, ◌≤◌, length, IfOk, decimal};
ghost use Rattle.refusals.specs.Answers.{answer_of};
ghost use Rattle.refusals.specs.Rooms.{no_room_refusal};
ghost use Rattle.judge.specs.Lines.{room_answer, with_line};

use arrayvec::ArrayVec;
use itoa::Buffer;
use refusals::{NoRoom, check_room};

// No line is longer.
pub(crate) type Line = ArrayVec<u8, 64>;

// One piece more.
pub(crate) fn put(line: &mut Line, piece: &[u8])
    requires { length line.old.items + length piece.now ≤ 64 }
    ensures { line.new.items ≡ line.old.items ++ piece.now }
{
    line.try_extend_from_slice(piece).unwrap();
}

// A number in decimal, with no leading zero.
pub(crate) fn put_decimal(line: &mut Line, number: usize)
    requires { length line.old.items + 20 ≤ 64 }
    ensures value { line.new.items ≡ line.old.items ++ decimal number }
    ensures short { length (decimal number) ≤ 20 }
{
    put(line, Buffer::new().format(number).as_bytes());
}

// Copies a line to the front of a slice, where there is room; its length.
pub(crate) fn copy_line(line: &[u8], out: &mut [u8]) -> Result<usize, NoRoom>
    ensures answer { answer_of (λ n. n) no_room_refusal result ≡ room_answer line.now out.old }
    ensures after { out.new ≡ with_line line.now out.old }
    ensures within { IfOk result (λ n. n ≤ length out.old) }
{
    let length = line.len();
    check_room(out.len(), length)?;
    out[..length].copy_from_slice(line);
    Ok(length)
}
