//! Answer sets of a book.
//!
//! `check` says whether a sheet is an answer set, `check_sheet` whether bytes are a sheet at all.
//! `rule_flags` chooses rules by a test, `least_atoms` gives the smallest set closed under the chosen ones, and
//! `smaller` is the order of sheets.
#![tactic(auto)]

pub mod check;
pub mod flags;
pub mod least;
pub mod order;
pub mod sheet;
