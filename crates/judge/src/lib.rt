// Both files to one answer, and the line that tells it.
// A change of the order of judging, or of what the line says, is made here.
#![tactic(auto)]

pub mod interim;
mod lines;
