// Table files: the times of a table as bytes, for the head of a plan and either kind of time.
// A change of the layout of table files is made here.
#![tactic(auto)]

mod faults;
mod layout;
mod reading;
mod writing;

pub use faults::{TableFault, WriteFault};
pub use reading::read_table;
pub use writing::write_table;
