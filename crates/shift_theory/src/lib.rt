// What shifting a plan with a delay into one without gives, and what is so of it: definitions and their
// proofs. The call stands in the crate above.
#![tactic(auto)]
