// What the tests are written with. Three small functions stand in `samples` too: a crate for them would be no plainer.
use fine::Fine;
use heads::Head;
use plans::{Limit, Pair};
use refusals::Refusal;
use shifts::shift;
use std::process::Abort;
use times::Time;
use whole::Whole;

pub(crate) fn whole(ticks: i32) -> Whole {
    Whole { ticks }
}

pub(crate) fn fine(ticks: i32, grains: i32) -> Fine {
    Fine { ticks, grains }
}

pub(crate) fn limit<T: Time>(from: u8, to: u8, bound: T) -> Limit<T> {
    Limit {
        from,
        to,
        wanted: 0,
        unwanted: 0,
        bound,
    }
}

// A pair with no limits.
pub(crate) fn pair_of<'a, T>(head: &'a Head, times: &'a [T]) -> Pair<'a, T> {
    Pair {
        head,
        limits: &[],
        times,
    }
}

// What stands in an array before a call.
pub(crate) fn blank() -> Limit<Whole> {
    Limit {
        from: 9,
        to: 9,
        wanted: 9,
        unwanted: 9,
        bound: whole(-7),
    }
}

pub(crate) fn is_limit(rt: &impl Abort, limit: &Limit<Whole>, from: u8, to: u8, bound: i32) {
    assert_eq!(rt; (limit.from, limit.to), (from, to));
    assert_eq!(rt; (limit.wanted, limit.unwanted), (0, 0));
    assert_eq!(rt; limit.bound.ticks, bound);
}

pub(crate) fn are_blank(rt: &impl Abort, limits: &[Limit<Whole>]) {
    for limit in limits {
        assert_eq!(rt; (limit.from, limit.to), (9, 9));
        assert_eq!(rt; (limit.wanted, limit.unwanted), (9, 9));
        assert_eq!(rt; limit.bound.ticks, -7);
    }
}

// The refusal with a number and a place.
pub(crate) fn refused<T: Time>(
    rt: &impl Abort,
    pair: &Pair<T>,
    limits: &mut [Limit<T>],
    times: &mut [T],
    number: u16,
    place: usize,
) {
    let refusal = shift(pair, limits, times).err().map(Refusal::from);
    assert_eq!(rt; refusal, Some(Refusal::at(number, place)));
}

// The outline of a head with one test.
pub(crate) fn is_outlined(rt: &impl Abort, head: &Head, points: u8, test: u8, round: u32) {
    assert_eq!(rt;
        (head.points(), head.letters(), head.point(0)),
        (points, 1, test)
    );
    assert_eq!(rt; (head.round(), head.delay()), (round, 0));
}
