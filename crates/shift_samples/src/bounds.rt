// The largest pairs that can be shifted, those one past them, and arrays one too short.
use crate::tools::*;
use fine::Fine;
use heads::Head;
use plans::{Limit, Pair};
use shifts::shift;
use std::process::Abort;
use std::test::Fail;
use whole::Whole;

const SIX: [u8; 6] = [1, 2, 3, 4, 5, 6];

// Three points, with test 0 at point 1, which stands at a moment of its own in row 1.
fn table(last: i32) -> [Whole; 6] {
    [0, 2, 5, 0, last, 7].map(whole)
}

#[test]
fn points(rt: HostRuntime) -> Result<(), Fail> {
    let head = Head::new(42, &SIX, 0, 3)?;
    let old = [whole(0); 2688];
    let pair = pair_of(&head, &old);
    let mut limits = [blank(); 12];
    let mut times = [whole(-7); 3072];
    let moved = shift(&pair, &mut limits, &mut times)?;
    assert_eq!(rt; (moved.points(), moved.letters()), (48, 6));
    assert_eq!(rt; (moved.point(0), moved.point(5)), (42, 47));
    is_limit(&rt, &limits[10], 6, 47, 3);
    is_limit(&rt, &limits[11], 47, 6, -3);
    assert_eq!(rt; (times[41].ticks, times[42].ticks), (0, 3));
    assert_eq!(rt; (times[3065].ticks, times[3071].ticks), (0, 3));
    Ok(())
}

// 18 comes before 11.
#[test]
fn too_many_points(rt: HostRuntime) -> Result<(), Fail> {
    let head = Head::new(43, &SIX, 0, 0)?;
    let old = [whole(0); 2752];
    let pair = pair_of(&head, &old);
    refused(&rt, &pair, &mut [], &mut [], 18, 0);
    Ok(())
}

// The refusal of a pair with three points and one test, which leaves two arrays with room as they were.
fn refuses<'a>(
    rt: &impl Abort,
    head: &'a Head,
    old: &'a [Limit<Whole>],
    rows: &'a [Whole],
    number: u16,
    place: usize,
) {
    let mut limits = [blank(); 260];
    let mut times = [whole(-7); 9];
    let pair = Pair {
        head,
        limits: old,
        times: rows,
    };
    refused(rt, &pair, &mut limits, &mut times, number, place);
    are_blank(rt, &limits);
    assert_eq!(rt; times, [-7; 9].map(whole));
}

#[test]
fn limits(rt: HostRuntime) -> Result<(), Fail> {
    let head = Head::new(3, &[1], 0, 3)?;
    let old = [limit(0, 2, whole(9)); 254];
    let rows = table(2);
    let pair = Pair {
        head: &head,
        limits: &old,
        times: &rows,
    };
    let mut limits = [blank(); 256];
    let mut times = [whole(-7); 8];
    shift(&pair, &mut limits, &mut times)?;
    is_limit(&rt, &limits[253], 0, 2, 9);
    is_limit(&rt, &limits[254], 1, 3, 3);
    is_limit(&rt, &limits[255], 3, 1, -3);
    Ok(())
}

#[test]
fn too_many_limits(rt: HostRuntime) -> Result<(), Fail> {
    let old = [limit(0, 2, whole(9)); 255];
    refuses(&rt, &Head::new(3, &[1], 0, 3)?, &old, &table(2), 18, 0);
    Ok(())
}

#[test]
fn ticks(rt: HostRuntime) -> Result<(), Fail> {
    let head = Head::new(3, &[1], 0, 3)?;
    let rows = table(999_997);
    let pair = pair_of(&head, &rows);
    let mut limits = [blank(); 2];
    let mut times = [whole(-7); 8];
    shift(&pair, &mut limits, &mut times)?;
    assert_eq!(rt; times, [0, 2, 5, 5, 0, 999_997, 7, 1_000_000].map(whole));
    Ok(())
}

#[test]
fn too_many_ticks(rt: HostRuntime) -> Result<(), Fail> {
    refuses(&rt, &Head::new(3, &[1], 0, 3)?, &[], &table(999_998), 18, 0);
    refuses(
        &rt,
        &Head::new(3, &[1], 0, 1_000_000)?,
        &[],
        &table(0),
        18,
        0,
    );
    Ok(())
}

// Two points, with test 0 at point 1.
fn fine_table(row_0: Fine, row_1: Fine) -> [Fine; 4] {
    [fine(0, 0), row_0, fine(0, 0), row_1]
}

// Of fine times the ticks alone count.
#[test]
fn grains(rt: HostRuntime) -> Result<(), Fail> {
    let head = Head::new(2, &[1], 0, 3)?;
    let rows = fine_table(fine(2, -1_000), fine(999_997, 1_000));
    let pair = pair_of(&head, &rows);
    let mut limits = [limit(0, 0, fine(0, 0)); 2];
    let mut times = [fine(-7, -7); 6];
    shift(&pair, &mut limits, &mut times)?;
    assert_eq!(rt; (limits[1].bound.ticks, limits[1].bound.grains), (-3, 0));
    assert_eq!(rt; (times[2].ticks, times[2].grains), (5, -1_000));
    assert_eq!(rt; (times[5].ticks, times[5].grains), (1_000_000, 1_000));
    Ok(())
}

#[test]
fn too_many_ticks_less_some_grains(rt: HostRuntime) -> Result<(), Fail> {
    let head = Head::new(2, &[1], 0, 3)?;
    let rows = fine_table(fine(2, 0), fine(999_998, -1_000));
    let pair = pair_of(&head, &rows);
    refused(&rt, &pair, &mut [], &mut [], 18, 0);
    Ok(())
}

// The refusal for want of room, with seven times lent where eight are written. Both arrays stay as they were.
fn lacks_room(rt: &impl Abort, limits: &mut [Limit<Whole>], place: usize) -> Result<(), Fail> {
    let head = Head::new(3, &[1], 0, 3)?;
    let rows = table(2);
    let pair = pair_of(&head, &rows);
    let mut times = [whole(-7); 7];
    refused(rt, &pair, limits, &mut times, 11, place);
    are_blank(rt, limits);
    assert_eq!(rt; times, [-7; 7].map(whole));
    Ok(())
}

// The array for limits comes before the one for times.
#[test]
fn short_limits(rt: HostRuntime) -> Result<(), Fail> {
    lacks_room(&rt, &mut [blank(); 1], 2)
}

#[test]
fn short_times(rt: HostRuntime) -> Result<(), Fail> {
    lacks_room(&rt, &mut [blank(); 2], 8)
}

#[test]
fn arrays_that_just_fit(rt: HostRuntime) -> Result<(), Fail> {
    let head = Head::new(3, &[1], 0, 3)?;
    let rows = table(2);
    let pair = pair_of(&head, &rows);
    let mut limits = [blank(); 2];
    let mut times = [whole(-7); 8];
    shift(&pair, &mut limits, &mut times)?;
    is_limit(&rt, &limits[1], 3, 1, -3);
    assert_eq!(rt; times, [0, 2, 5, 5, 0, 2, 7, 5].map(whole));
    Ok(())
}

// The rules of memory come before 18.
#[test]
fn memory_first(rt: HostRuntime) -> Result<(), Fail> {
    let head = Head::new(3, &[1], 0, 3)?;
    let rows = table(1_000_001);
    let old = [limit(3, 0, whole(0)); 256];
    refuses(&rt, &head, &[], &rows, 9, 4);
    refuses(&rt, &head, &old, &rows[0..5], 4, 1);
    refuses(&rt, &head, &old, &rows, 8, 0);
    Ok(())
}
