//! Layers: operators over any lawful operators, and the stacks that are made of them.
//!
//! `Sequence` applies one and then another, `UntilRest` one until it leaves the page as it was, `Lookahead` tries
//! the open objects. `Basic` and `Full` are the stacks, and `Nothing` derives nothing.
#![tactic(auto)]

pub mod lookahead;
pub mod nothing;
pub mod sequence;
pub mod stacks;
pub mod until_rest;
