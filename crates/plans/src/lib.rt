// Plans and tables in memory: limits, where a table keeps its times, and the checks that every call makes of
// what it is lent. A change of a rule of limits or of the layout of a table is made here.
#![tactic(auto)]

mod checks;
mod faults;
mod limits;
mod pairs;

pub use checks::{check_limits, check_pair, is_allowed, is_fitting};
pub use faults::MemoryFault;
pub use limits::Limit;
pub use pairs::{Pair, table_place, table_size};
