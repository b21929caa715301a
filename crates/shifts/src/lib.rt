// Shifting a plan with a delay into one without: the old tests become plain points, and new tests stand the
// delay after them. A change of what shifting gives or refuses is made here.
#![tactic(auto)]

mod checks;
mod counts;
mod delays;
mod faults;
mod filling;
mod kept;
mod shifting;

pub use faults::ShiftFault;
pub use shifting::shift;
