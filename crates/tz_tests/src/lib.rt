//! Tests of what no command shows of the crates below: calls by themselves, values inside of boards, images and
//! instructions, the doubles of the outside, and streams that fail. What commands show stands in `cases/`, and what calls of
//! the machine and its parts answer in the files of `tz_ask_cases`.
//!
//! A crate with tests is proved once more for them, and each program of tests loads all that it stands on, so they stand
//! together and apart from what they test. Nothing stands on this crate.
#![tactic(auto)]

#[cfg(test)]
mod tests;
