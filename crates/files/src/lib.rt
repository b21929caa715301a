// Plan files and table files: what their bytes say, or the first field that is refused.
// A change of either layout, or of a rule that a field keeps, is made here.
#![tactic(auto)]

pub mod headers;
