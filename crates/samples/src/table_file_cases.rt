// Table files of both kinds: every refusal at every kind of field, and the largest files.
use crate::tools::{changed, fine, whole};
use heads::Head;
use refusals::Refusal;
use std::process::Abort;
use std::test::Fail;
use table_files::{read_table, write_table};
use times::Time;
use whole::Whole;

// Three points, one test.
const WHOLE: [u8; 31] =
    *b"\x52\x55\x4E\0\x01\x03\x01\0\0\0\0\0\0\0\x02\0\0\0\x02\0\0\0\0\0\0\0\x02\0\0\0\x03";

const FINE: [u8; 55] =
    *b"\x52\x55\x4E\0\x02\x03\x01\0\0\0\0\0\0\0\0\0\0\0\x02\0\0\0\0\0\0\0\x02\0\0\0\x01\0\0\0\0\0\0\0\0\0\0\0\x02\0\0\0\0\0\0\0\x03\xFF\xFF\xFF\xFF";

fn read<T: Time>(file: &[u8], head: &Head, times: &mut [T]) -> Result<usize, Refusal> {
    read_table(file, head, times).map_err(Refusal::from)
}

fn write<T: Time>(head: &Head, times: &[T], file: &mut [u8]) -> Result<usize, Refusal> {
    write_table(head, times, file).map_err(Refusal::from)
}

// The refusal of a file, which leaves the array as it was.
fn refuses<T: Time + PartialEq, const N: usize>(
    rt: &impl Abort,
    file: &[u8],
    before: [T; N],
    refusal: Refusal,
) -> Result<(), Fail> {
    let mut times = before;
    let answer = read(file, &Head::new(3, &[1], 0, 0)?, &mut times);
    assert_eq!(rt; answer, Err(refusal));
    assert!(rt; times == before);
    Ok(())
}

fn whole_says(rt: &impl Abort, file: &[u8], number: u16, place: usize) -> Result<(), Fail> {
    refuses(rt, file, [whole(-7); 7], Refusal::at(number, place))
}

fn fine_says(rt: &impl Abort, file: &[u8], number: u16, place: usize) -> Result<(), Fail> {
    refuses(rt, file, [fine(-7, 9); 6], Refusal::at(number, place))
}

#[test]
fn a_whole_table(rt: HostRuntime) -> Result<(), Fail> {
    let head = Head::new(3, &[1], 0, 0)?;
    let mut times = [whole(-7); 8];
    assert_eq!(rt; read(&WHOLE, &head, &mut times), Ok(6));
    assert_eq!(rt; times, [0, 2, 2, 0, 2, 3, -7, -7].map(whole));
    let mut out = [0xEE; 33];
    assert_eq!(rt; write(&head, &times[0..6], &mut out), Ok(31));
    assert!(rt; out[0..31] == WHOLE[0..31]);
    assert!(rt; out[31] == 0xEE && out[32] == 0xEE);
    Ok(())
}

#[test]
fn a_fine_table(rt: HostRuntime) -> Result<(), Fail> {
    let head = Head::new(3, &[1], 0, 0)?;
    let mut times = [fine(-7, 9); 7];
    assert_eq!(rt; read(&FINE, &head, &mut times), Ok(6));
    let after = [(0, 0), (2, 0), (2, 1), (0, 0), (2, 0), (3, -1), (-7, 9)];
    assert_eq!(rt; times, after.map(|(ticks, grains)| fine(ticks, grains)));
    let mut out = [0xEE; 56];
    assert_eq!(rt; write(&head, &times[0..6], &mut out), Ok(55));
    assert!(rt; out[0..55] == FINE[0..55]);
    assert_eq!(rt; out[55], 0xEE);
    Ok(())
}

#[test]
fn cuts_at_every_byte(rt: HostRuntime) -> Result<(), Fail> {
    for length in 0..31 {
        whole_says(&rt, &WHOLE[0..length], 1, length)?;
    }
    for length in 0..55 {
        fine_says(&rt, &FINE[0..length], 1, length)?;
    }
    whole_says(&rt, &[1, 2], 1, 2)?;
    whole_says(&rt, &[1, 2, 3], 2, 0)
}

#[test]
fn one_byte_more(rt: HostRuntime) -> Result<(), Fail> {
    let mut longer = [0; 32];
    longer[0..31].copy_from_slice(&WHOLE);
    whole_says(&rt, &longer, 10, 31)?;
    let mut longer = [9; 56];
    longer[0..55].copy_from_slice(&FINE);
    fine_says(&rt, &longer, 10, 55)
}

// A byte that is changed, and the refusal then.
#[test]
fn fields_of_a_whole_table(rt: HostRuntime) -> Result<(), Fail> {
    let cases = [
        (0, 0x53, 2, 0),
        (1, 0x54, 2, 0),
        (2, 0x4D, 2, 0),
        (3, 1, 3, 3),
        (4, 2, 3, 3),
        (4, 0, 3, 3),
        (5, 2, 4, 5),
        (5, 4, 4, 5),
        (6, 0, 4, 6),
        (6, 2, 4, 6),
        (10, 1, 9, 7),
        (7, 0x80, 9, 7),
        (11, 0xFF, 9, 11),
        (22, 1, 9, 19),
        (27, 1, 9, 27),
        (28, 0x10, 9, 27),
    ];
    for (at, byte, number, place) in cases {
        whole_says(&rt, &changed(WHOLE, at, byte), number, place)?;
    }
    whole_says(&rt, &FINE, 3, 3)
}

#[test]
fn fields_of_a_fine_table(rt: HostRuntime) -> Result<(), Fail> {
    let cases = [
        (2, 0x4D, 2, 0),
        (4, 1, 3, 3),
        (5, 4, 4, 5),
        (6, 2, 4, 6),
        (10, 1, 9, 7),
        (14, 1, 9, 7),
        (15, 0xFF, 9, 15),
        (29, 4, 9, 23),
        (38, 1, 9, 31),
        (53, 0xFB, 9, 47),
        (50, 0, 9, 47),
    ];
    for (at, byte, number, place) in cases {
        fine_says(&rt, &changed(FINE, at, byte), number, place)?;
    }
    fine_says(&rt, &WHOLE, 3, 3)
}

#[test]
fn bounds_of_a_whole_time(rt: HostRuntime) -> Result<(), Fail> {
    let head = Head::new(2, &[], 0, 0)?;
    let mut times = [whole(-7); 2];
    let most = *b"\x52\x55\x4E\0\x01\x02\0\0\0\0\0\0\x0F\x42\x40";
    assert_eq!(rt; read(&most, &head, &mut times), Ok(2));
    assert_eq!(rt; times, [whole(0), whole(1_000_000)]);
    let over = *b"\x52\x55\x4E\0\x01\x02\0\0\0\0\0\0\x0F\x42\x41";
    assert_eq!(rt; read(&over, &head, &mut times), Err(Refusal::at(9, 11)));
    Ok(())
}

#[test]
fn bounds_of_a_fine_time(rt: HostRuntime) -> Result<(), Fail> {
    let head = Head::new(2, &[], 0, 0)?;
    let mut times = [fine(-7, 9); 2];
    let low = *b"\x52\x55\x4E\0\x02\x02\0\0\0\0\0\0\0\0\0\0\0\0\x01\xFF\xFF\xFC\x18";
    assert_eq!(rt; read(&low, &head, &mut times), Ok(2));
    assert_eq!(rt; times, [fine(0, 0), fine(1, -1_000)]);
    let under = *b"\x52\x55\x4E\0\x02\x02\0\0\0\0\0\0\0\0\0\0\0\0\x01\xFF\xFF\xFC\x17";
    assert_eq!(rt; read(&under, &head, &mut times), Err(Refusal::at(9, 15)));
    Ok(())
}

// The refusal of a file that is read into five times. 11 comes after the header and before the times.
fn short_says(rt: &impl Abort, file: &[u8], number: u16, place: usize) -> Result<(), Fail> {
    refuses(rt, file, [whole(-7); 5], Refusal::at(number, place))
}

#[test]
fn an_array_that_is_too_short(rt: HostRuntime) -> Result<(), Fail> {
    short_says(&rt, &WHOLE, 11, 6)?;
    short_says(&rt, &WHOLE[0..7], 11, 6)?;
    short_says(&rt, &WHOLE[0..6], 1, 6)?;
    let late = changed(WHOLE, 10, 1);
    short_says(&rt, &late, 11, 6)?;
    short_says(&rt, &changed(late, 6, 0), 4, 6)
}

// The refusal of times that are written to so many bytes, which stay as they were.
fn unwritten(rt: &impl Abort, times: &[Whole], number: u16, place: usize) -> Result<(), Fail> {
    let mut out = [0xEE; 30];
    let answer = write(&Head::new(3, &[1], 0, 0)?, times, &mut out);
    assert_eq!(rt; answer, Err(Refusal::at(number, place)));
    assert!(rt; out == [0xEE; 30]);
    Ok(())
}

#[test]
fn tables_that_are_not_written(rt: HostRuntime) -> Result<(), Fail> {
    let zero = whole(0);
    let two = whole(2);
    let most = whole(1_000_000);
    unwritten(&rt, &[zero, two, two, zero, two], 4, 1)?;
    unwritten(&rt, &[zero, two, whole(-1), zero, two, two, zero], 4, 1)?;
    unwritten(&rt, &[zero, two, two, zero, most, whole(-1)], 9, 5)?;
    unwritten(
        &rt,
        &[zero, two, two, zero, whole(1_000_001), whole(-1)],
        9,
        4,
    )?;
    unwritten(&rt, &[zero, two, two, two, whole(-1), two], 9, 3)?;
    unwritten(&rt, &[two, whole(-1), two, zero, two, two], 9, 0)?;
    unwritten(&rt, &[zero, two, two, zero, most, zero], 11, 31)
}

// 48 points and 6 tests: point 0 at zero, and all others at the time that is lent. What is read into has room
// for more times than that.
fn largest<T: Time + PartialEq>(
    rt: &impl Abort,
    zero: T,
    times: &mut [T],
    out: &mut [u8],
    back: &mut [T],
) -> Result<(), Fail> {
    let head = Head::new(48, &[1, 2, 3, 4, 5, 6], 0, 0)?;
    for start in times.iter_mut().step_by(48) {
        *start = zero;
    }
    let length = 7 + T::width() * 3072;
    assert!(rt; out.len() > length && back.len() > 3072);
    let before = back[3072];
    let short = write(&head, times, &mut out[0..length - 1]);
    assert_eq!(rt; short, Err(Refusal::at(11, length)));
    assert_eq!(rt; out[0], 0xEE);
    assert_eq!(rt; write(&head, times, out), Ok(length));
    assert_eq!(rt; out[length], 0xEE);
    let longer = read(&out[0..length + 1], &head, back);
    assert_eq!(rt; longer, Err(Refusal::at(10, length)));
    let cut = read(&out[0..length - 1], &head, back);
    assert_eq!(rt; cut, Err(Refusal::at(1, length - 1)));
    let short = read(&out[0..length], &head, &mut back[0..3071]);
    assert_eq!(rt; short, Err(Refusal::at(11, 3072)));
    assert_eq!(rt; read(&out[0..length], &head, back), Ok(3072));
    assert!(rt; back[0..3072] == times[..] && back[3072] == before);
    Ok(())
}

#[test]
fn the_largest_whole_table(rt: HostRuntime) -> Result<(), Fail> {
    let mut times = [whole(1_000_000); 3072];
    let mut out = [0xEE; 12296];
    let mut back = [whole(-7); 3073];
    largest(&rt, whole(0), &mut times, &mut out, &mut back)
}

#[test]
fn the_largest_fine_table(rt: HostRuntime) -> Result<(), Fail> {
    let mut times = [fine(1_000_000, 1_000); 3072];
    let mut out = [0xEE; 24584];
    let mut back = [fine(-7, 9); 3073];
    largest(&rt, fine(0, 0), &mut times, &mut out, &mut back)
}
