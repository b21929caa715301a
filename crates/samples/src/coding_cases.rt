// Bytes of times, both ways.
use crate::tools::{LEAST, MOST, fine, whole};
use fine::Fine;
use refusals::Refusal;
use time_rules::{is_same, whole_ticks};
use times::{Time, TimeFault};
use whole::Whole;

// Coded and decoded again, a time is the same.
fn comes_back<T: Time>(t: T) -> bool {
    T::decode(t.encode().as_slice(), 0).is_ok_and(|back| is_same(t, back))
}

#[test]
fn round_trips(rt: HostRuntime) {
    let cases = [
        (0, 0),
        (0, -1),
        (0, 1),
        (-1, 0),
        (1_000_000_000, -1_000_000),
        (-1_000_000_000, 1_000_000),
        (MOST, LEAST),
        (LEAST, MOST),
        (0x0102_0304, 0x7f80_00ff),
    ];
    for (ticks, grains) in cases {
        assert!(rt; comes_back(fine(ticks, grains)));
        assert!(rt; comes_back(whole(ticks)));
    }
}

#[test]
fn bytes_of_times(rt: HostRuntime) {
    let coded = fine(-2, 0x0102_0304).encode();
    assert_eq!(rt; coded.as_slice(), &[255, 255, 255, 254, 1, 2, 3, 4][..]);
    let coded = whole(258).encode();
    assert_eq!(rt; coded.as_slice(), &[0, 0, 1, 2][..]);
    assert_eq!(rt; Whole::version(), 1);
    assert_eq!(rt; Fine::version(), 2);
    assert_eq!(rt; Whole::width(), 4);
    assert_eq!(rt; Fine::width(), 8);
}

#[test]
fn decoding(rt: HostRuntime) {
    let file = [9, 255, 255, 255, 255, 128, 0, 0, 0, 7];
    assert_eq!(rt; Whole::decode(&file, 1), Ok(whole(-1)));
    assert_eq!(rt; Whole::decode(&file, 5), Ok(whole(LEAST)));
    assert_eq!(rt; Whole::decode(&file, 6), Ok(whole(7)));
    assert_eq!(rt; Whole::decode(&file, 7), Err(TimeFault::Ended(10)));
    assert_eq!(rt; Whole::decode(&file, usize::MAX), Err(TimeFault::Ended(10)));
    assert_eq!(rt; Fine::decode(&file, 1), Ok(fine(-1, LEAST)));
    assert!(rt; Fine::decode(&file, 2).is_ok());
    assert_eq!(rt; Fine::decode(&file, 3), Err(TimeFault::Ended(10)));
    assert_eq!(rt; Fine::decode(&file, usize::MAX), Err(TimeFault::Ended(10)));
}

#[test]
fn faults(rt: HostRuntime) {
    assert_eq!(rt; Refusal::from(TimeFault::Ended(10)), Refusal::at(1, 10));
    assert_eq!(rt; Refusal::from(TimeFault::OutOfRule(34)), Refusal::at(9, 34));
}

#[test]
fn whole_ticks_of_any_kind(rt: HostRuntime) {
    for ticks in [0, 1, -1, MOST, LEAST] {
        assert_eq!(rt; whole_ticks::<Whole>(ticks), whole(ticks));
        assert_eq!(rt; whole_ticks::<Fine>(ticks), fine(ticks, 0));
    }
}
