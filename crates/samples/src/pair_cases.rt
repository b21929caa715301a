// Heads, the checks of memory, and verdicts beside those of the worked examples.
use crate::tools::{TIMES, fine, whole};
use heads::{Head, HeadFault};
use offences::Offence;
use plans::{Limit, MemoryFault, Pair};
use std::process::Abort;
use std::test::Fail;
use times::Time;
use verdicts::{PairFault, judge};
use whole::Whole;

#[test]
fn heads_that_are_none(rt: HostRuntime) {
    let cases = [
        (Head::new(0, &[], 0, 0), HeadFault::Counts),
        (Head::new(49, &[], 2_000_000, 0), HeadFault::Counts),
        (
            Head::new(9, &[1, 2, 3, 4, 5, 6, 7], 0, 0),
            HeadFault::Counts,
        ),
        (Head::new(3, &[0], 1_000_001, 0), HeadFault::Figures),
        (Head::new(3, &[0], 0, 1_000_001), HeadFault::Figures),
        (Head::new(3, &[1, 1], 0, 0), HeadFault::Test(1)),
        (Head::new(3, &[3, 0], 0, 0), HeadFault::Test(0)),
        (Head::new(3, &[2, 0], 0, 0), HeadFault::Test(1)),
    ];
    for (answer, fault) in cases {
        assert_eq!(rt; answer.err(), Some(fault));
    }
}

#[test]
fn what_a_head_says(rt: HostRuntime) -> Result<(), Fail> {
    let head = Head::new(48, &[9, 8, 7, 6, 5, 47], 1_000_000, 1_000_000)?;
    assert_eq!(rt; (head.points(), head.letters(), head.rows()), (48, 6, 64));
    assert_eq!(rt; (head.round(), head.delay()), (1_000_000, 1_000_000));
    assert_eq!(rt;
        (head.test(0), head.test(5), head.test(6)),
        (Some(9), Some(47), None)
    );
    let small = Head::smallest();
    assert_eq!(rt; (small.points(), small.letters(), small.rows()), (1, 0, 1));
    assert_eq!(rt; (small.test(0), small.point(0)), (None, 0));
    Ok(())
}

fn limit(from: u8, to: u8, wanted: u8, unwanted: u8, bound: i32) -> Limit<Whole> {
    Limit {
        from,
        to,
        wanted,
        unwanted,
        bound: whole(bound),
    }
}

fn says<'a, T: Time>(
    rt: &impl Abort,
    head: &'a Head,
    limits: &'a [Limit<T>],
    times: &'a [T],
    answer: Result<(), PairFault>,
) {
    let pair = Pair {
        head,
        limits,
        times,
    };
    assert_eq!(rt; judge(&pair, &head.rule()), answer);
}

fn in_memory(fault: MemoryFault) -> Result<(), PairFault> {
    Err(PairFault::InMemory(fault))
}

#[test]
fn times_in_memory(rt: HostRuntime) -> Result<(), Fail> {
    let head = Head::new(3, &[1], 0, 0)?;
    let mut late = TIMES;
    late[3] = whole(1);
    says(&rt, &head, &[], &late, in_memory(MemoryFault::Time(3)));
    late[2] = whole(-1);
    says(&rt, &head, &[], &late, in_memory(MemoryFault::Time(2)));
    late[2] = whole(1_000_001);
    says(&rt, &head, &[], &late, in_memory(MemoryFault::Time(2)));
    Ok(())
}

#[test]
fn memory_is_checked_in_order(rt: HostRuntime) -> Result<(), Fail> {
    let head = Head::new(3, &[1], 0, 0)?;
    let mut late = TIMES;
    late[3] = whole(1);
    let bad = limit(3, 0, 0, 0, 0);
    let far = limit(0, 1, 0, 0, 1_000_001);
    let cases: [(&[Limit<Whole>], &[Whole], MemoryFault); 9] = [
        (&[bad; 257], &[], MemoryFault::ManyLimits),
        (&[bad], &TIMES[0..5], MemoryFault::CountOfTimes),
        (&[bad], &late, MemoryFault::Limit(0)),
        (&[limit(0, 3, 0, 0, 0)], &late, MemoryFault::Limit(0)),
        (&[limit(0, 1, 2, 0, 0)], &late, MemoryFault::Limit(0)),
        (&[limit(0, 1, 0, 2, 0)], &late, MemoryFault::Limit(0)),
        (&[limit(0, 1, 1, 1, 0)], &late, MemoryFault::Limit(0)),
        (&[far, bad], &late, MemoryFault::Bound(0)),
        (&[], &late, MemoryFault::Time(3)),
    ];
    for (limits, times, fault) in cases {
        says(&rt, &head, limits, times, in_memory(fault));
    }
    Ok(())
}

#[test]
fn the_first_offence(rt: HostRuntime) -> Result<(), Fail> {
    let head = Head::new(3, &[1], 0, 0)?;
    let later = [0, 3, 6, 0, 2, 5].map(whole);
    let early = Offence::Early {
        first: 1,
        second: 0,
        point: 1,
    };
    says(&rt, &head, &[], &later, Err(PairFault::Offends(early)));
    let same = [0, 2, 5, 0, 2, 5].map(whole);
    let limits = [limit(1, 2, 1, 0, 2), limit(0, 2, 0, 1, 4)];
    let broken = Offence::Limit { row: 0, limit: 1 };
    says(&rt, &head, &limits, &same, Err(PairFault::Offends(broken)));
    Ok(())
}

#[test]
fn a_delay_at_fine_times(rt: HostRuntime) -> Result<(), Fail> {
    let head = Head::new(3, &[1], 0, 1)?;
    let times = [(0, 0), (2, 0), (2, 1), (0, 0), (2, 0), (3, 0)];
    let times = times.map(|(ticks, grains)| fine(ticks, grains));
    let early = Offence::Early {
        first: 0,
        second: 1,
        point: 2,
    };
    says(&rt, &head, &[], &times, Err(PairFault::Offends(early)));
    Ok(())
}

// 48 points, 64 rows and 256 limits, with the last time of the last row at a number of ticks.
fn largest_says(rt: &impl Abort, last: i32, answer: Result<(), PairFault>) -> Result<(), Fail> {
    let head = Head::new(48, &[1, 2, 3, 4, 5, 6], 0, 0)?;
    let mut times = [whole(last); 3072];
    for (i, time) in times[0..3071].iter_mut().enumerate() {
        *time = whole((i % 48) as i32);
    }
    let limits = [limit(0, 47, 63, 0, 50); 256];
    says(rt, &head, &limits, &times, answer);
    Ok(())
}

#[test]
fn the_largest_pair(rt: HostRuntime) -> Result<(), Fail> {
    largest_says(&rt, 47, Ok(()))?;
    largest_says(&rt, 50, Ok(()))?;
    let broken = Offence::Limit { row: 63, limit: 0 };
    largest_says(&rt, 51, Err(PairFault::Offends(broken)))
}
