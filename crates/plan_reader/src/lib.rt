// Plan files read into a head and lent limits.
// A change of what reading a plan stores is made here.
#![tactic(auto)]

mod checks;
mod faults;
mod filling;
mod names;
mod reading;
mod records;

pub use faults::PlanFault;
pub use names::{read_name, read_names};
pub use reading::read_plan;
