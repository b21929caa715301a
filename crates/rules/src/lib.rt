// Rules that say when the outcome of a test is seen.
#![tactic(auto)]

mod at_once;
mod bases;
mod faults;
mod in_rounds;
mod late;
mod makers;
mod meanings;

pub use at_once::Prompt;
pub use bases::BaseRule;
pub use faults::RuleFault;
pub use in_rounds::Rounds;
pub use late::Delay;
pub use makers::named_rule;
pub use meanings::Rule;
