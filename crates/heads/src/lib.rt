// The head of a plan: how many points, which of them are tests, and its reaction rule. A change of what a
// head may be, or of what it says, is made here.
#![tactic(auto)]

ghost use Rattle.std.specs.Prelude.{◌≡◌, ℕ, ◌<◌, ◌≤◌, length, ◌≢◌, slice_index};

mod accessors;
mod faults;
mod makers;

pub use faults::HeadFault;
pub use makers::is_test;

// The number of points, the point of each test, and the figures of the plan's reaction rule: the
// ticks of a round, 0 for none, and of a delay. Letter i is the outcome of test i. Every head keeps
// the rules of its ghost fields, so no call has to check one.
// Its tests stand in an array of its own with their number beside it: there is no heap, and a head is copied.
#[derive(Clone, Copy, PartialEq, Eq, Debug)]
pub struct Head {
    points: u8,
    letters: u8,
    tests: [u8; 6],
    round: u32,
    delay: u32,
    ghost six: { length tests ≡ 6 },
    ghost some: { 1 ≤ points },
    ghost few: { points ≤ 48 },
    ghost lettered: { letters ≤ 6 },
    ghost started: { (i : ℕ) → i < letters → 0 < slice_index tests i },
    ghost placed: { (i : ℕ) → i < letters → slice_index tests i < points },
    ghost apart: { (i j : ℕ) → (i < j) × (j < letters) → slice_index tests i ≢ slice_index tests j },
    ghost blank: { (i : ℕ) → letters ≤ i → slice_index tests i ≡ 0 },
    ghost rounded: { round ≤ 1000000 },
    ghost delayed: { delay ≤ 1000000 },
}
