// What the tests are written with.
use fine::Fine;
use whole::Whole;

pub const MOST: i32 = i32::MAX;

pub const LEAST: i32 = i32::MIN;

// Two rows of three points, with test 0 at point 1.
pub const TIMES: [Whole; 6] = [
    Whole { ticks: 0 },
    Whole { ticks: 2 },
    Whole { ticks: 5 },
    Whole { ticks: 0 },
    Whole { ticks: 2 },
    Whole { ticks: 7 },
];

pub(crate) fn whole(ticks: i32) -> Whole {
    Whole { ticks }
}

pub(crate) fn fine(ticks: i32, grains: i32) -> Fine {
    Fine { ticks, grains }
}

// A file with one byte changed.
pub(crate) fn changed<const N: usize>(file: [u8; N], at: usize, byte: u8) -> [u8; N] {
    let mut file = file;
    if let Some(place) = file.get_mut(at) {
        *place = byte;
    }
    file
}
