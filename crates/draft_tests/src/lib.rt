//! Tests of drafts: the limits one at a time, and what is written.
#![tactic(auto)]

#[cfg(test)]
mod limits;
#[cfg(test)]
mod written;
