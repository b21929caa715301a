// The records of a plan file, read one at a time: names, tests and limits.
// A change of what follows the header of a plan file is made here.
#![tactic(auto)]

mod bounds;
mod faults;
mod names;
mod readers;
mod sizes;

pub use faults::RecordFault;
pub use names::check_names;
pub use readers::{Reader, Record};
pub use sizes::limit_width;
