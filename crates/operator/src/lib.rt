//! Operators: what follows from a book and the marks of a page.
//!
//! `Operator` is the interface, with its law. `Forward`, `Backward` and `Unfounded` are the plain ones.
#![tactic(auto)]

pub mod backward;
pub mod forward;
mod marks;
mod notes;
pub mod operator;
pub mod page;
mod part;
mod plain;
pub mod unfounded;
