// What a kind of time answers. What a value of a kind stands for is a moment, a pair of integers. A change of
// what every kind promises is made here; each kind has a crate of its own.
#![tactic(auto)]

mod bytes;
mod codings;
mod counts;
mod faults;
mod kinds;

pub use bytes::{Coded, bytes_at, signed_at};
pub use codings::{Kind, UnknownVersion};
pub use counts::{Ticks, difference};
pub use faults::TimeFault;
pub use kinds::Time;
