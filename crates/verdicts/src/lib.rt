// The verdict on a plan and a table under a reaction rule, and what it means. A change of what is asked of a
// pair before it is accepted is made here.
#![tactic(auto)]

mod faults;
mod verdict;

pub use faults::PairFault;
pub use verdict::judge;
