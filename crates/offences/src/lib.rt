// What speaks against a plan and a table, and the first limit that a row breaks. A change of what an offence is, or of
// when a limit applies, is made here.
#![tactic(auto)]

mod breaking;
mod faults;

pub use breaking::find_break;
pub use faults::Offence;
