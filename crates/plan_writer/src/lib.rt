// Plan files written from a head, limits and names, for either kind of time.
// A change of how the parts of a plan file are put into bytes is made here.
#![tactic(auto)]

mod faults;
mod putting;
mod sources;
mod writing;

pub use faults::PlanWriteFault;
pub use writing::write_plan;
