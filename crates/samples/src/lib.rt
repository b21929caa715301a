// Tables of cases as tests, in a crate of their own so that the crates that they test stay quick to check.
#![tactic(auto)]

#[cfg(test)]
mod coding_cases;
#[cfg(test)]
mod headers;
#[cfg(test)]
mod pair_cases;
#[cfg(test)]
mod rule_cases;
#[cfg(test)]
mod run_cases;
#[cfg(test)]
mod table_file_cases;
#[cfg(test)]
mod time_cases;
#[cfg(test)]
mod tools;
