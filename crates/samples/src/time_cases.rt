// Times around zero, the ends of the range and the ends of their numbers.
use crate::tools::{LEAST, MOST, fine, whole};
use time_rules::{is_at_zero, is_bound, is_same, is_table_time};
use times::{Ticks, Time};

#[test]
fn order(rt: HostRuntime) {
    let cases = [
        (0, 0, 0, 0, false),
        (0, -1, 0, 0, true),
        (0, 0, 0, -1, false),
        (0, 0, 0, 1, true),
        (-1, 1, 0, -1, true),
        (1, -1, 0, 1, false),
        (LEAST, LEAST, MOST, MOST, true),
        (MOST, MOST, LEAST, LEAST, false),
        (LEAST, LEAST, LEAST, LEAST, false),
        (MOST, MOST - 1, MOST, MOST, true),
    ];
    for (a, b, c, d, earlier) in cases {
        assert_eq!(rt; fine(a, b).is_earlier(fine(c, d)), earlier);
        assert_eq!(rt; whole(a).is_earlier(whole(c)), a < c);
        assert_eq!(rt; is_same(fine(a, b), fine(c, d)), a == c && b == d);
    }
}

#[test]
fn differences(rt: HostRuntime) {
    // first, second and bound, and whether second minus first is at most bound
    let cases = [
        (fine(0, 0), fine(0, 0), fine(0, 0), true),
        (fine(0, 0), fine(0, 1), fine(0, 0), false),
        (fine(0, 1), fine(0, 0), fine(0, -1), true),
        (fine(0, 0), fine(5, -1), fine(5, 0), true),
        (fine(0, -1), fine(5, 0), fine(5, 0), false),
        (fine(LEAST, 0), fine(MOST, 0), fine(MOST, 0), false),
        (fine(MOST, 0), fine(LEAST, 0), fine(LEAST, 0), true),
        (fine(0, LEAST), fine(0, MOST), fine(0, MOST), false),
        (fine(0, MOST), fine(0, LEAST), fine(0, LEAST), true),
    ];
    for (first, second, bound, within) in cases {
        assert_eq!(rt; first.is_within(second, bound), within);
    }
    assert!(rt; !whole(LEAST).is_within(whole(MOST), whole(MOST)));
    assert!(rt; whole(MOST).is_within(whole(LEAST), whole(LEAST)));
    assert!(rt; whole(3).is_within(whole(8), whole(5)));
    assert!(rt; !whole(3).is_within(whole(8), whole(4)));
}

// So many ticks later, or `None`, as `ticks` is no count or the sum leaves the range.
fn later<T: Time>(t: T, ticks: u32) -> Option<T> {
    t.add_ticks(Ticks::new(ticks)?)
}

fn plain_sum(ticks: i32, more: u32) -> i64 {
    i64::from(ticks) + i64::from(more)
}

#[test]
fn sums(rt: HostRuntime) {
    let cases = [
        (0, 0, 0, true),
        (0, 0, 1_000_000_000, true),
        (1, 0, 1_000_000_000, false),
        (-1_000_000_000, 0, 1_000_000_000, true),
        (-1_000_000_000, 0, 0, true),
        (-1_000_000_001, 0, 0, false),
        (-1_000_000_001, 0, 1, true),
        (999_999_997, -1, 3, true),
        (999_999_997, -1, 4, false),
        (LEAST, 0, 1_000_000_000, false),
        (MOST, 0, 0, false),
        (5, 1_000_000, 3, true),
        (5, 1_000_001, 3, false),
        (5, -1_000_000, 3, true),
        (5, -1_000_001, 3, false),
        (5, LEAST, 3, false),
        (0, 0, 1_000_000_001, false),
    ];
    for (ticks, grains, more, in_range) in cases {
        assert_eq!(rt; later(fine(ticks, grains), more).is_some(), in_range);
        if let Some(sum) = later(fine(ticks, grains), more) {
            assert_eq!(rt; i64::from(sum.ticks), plain_sum(ticks, more));
            assert_eq!(rt; sum.grains, grains);
        }
    }
    assert_eq!(rt; later(whole(999_999_997), 3), Some(whole(1_000_000_000)));
    assert_eq!(rt; later(whole(999_999_997), 4), None);
    assert_eq!(rt;
        later(whole(-1_000_000_001), 1),
        Some(whole(-1_000_000_000))
    );
    assert_eq!(rt; later(whole(-1_000_000_001), 0), None);
}

#[test]
fn last_ticks(rt: HostRuntime) {
    let cases: [(i32, i32, i64); 9] = [
        (0, 0, 0),
        (0, 1, 0),
        (0, -1, -1),
        (5, -1, 4),
        (5, MOST, 5),
        (-5, -1, -6),
        (-5, 1, -5),
        (LEAST, -1, -2_147_483_649),
        (MOST, LEAST, 2_147_483_646),
    ];
    for (ticks, grains, last) in cases {
        assert_eq!(rt; fine(ticks, grains).last_tick(), last);
        assert_eq!(rt; whole(ticks).last_tick(), i64::from(ticks));
    }
}

#[test]
fn bounds_and_table_times(rt: HostRuntime) {
    // ticks and grains, and whether they make a bound, a time of a table, and zero
    let cases = [
        (0, 0, true, true, true),
        (0, -1, true, false, false),
        (0, 1, true, true, false),
        (1, -1, true, true, false),
        (-1, 1, true, false, false),
        (1_000_000, 1_000, true, true, false),
        (1_000_001, 0, false, false, false),
        (-1_000_000, -1_000, true, false, false),
        (-1_000_001, 0, false, false, false),
        (5, 1_001, false, false, false),
        (5, -1_001, false, false, false),
        (MOST, MOST, false, false, false),
        (LEAST, LEAST, false, false, false),
    ];
    for (ticks, grains, bound, table, zero) in cases {
        let t = fine(ticks, grains);
        assert_eq!(rt; is_bound(t), bound);
        assert_eq!(rt; is_table_time(t), table);
        assert_eq!(rt; is_at_zero(t), zero);
    }
    assert!(rt; is_bound(whole(-1_000_000)));
    assert!(rt; !is_bound(whole(-1_000_001)));
    assert!(rt; !is_table_time(whole(-1)));
    assert!(rt; is_table_time(whole(1_000_000)));
    assert!(rt; is_at_zero(whole(0)));
}
