//! Drafts of books: rules collected one at a time, and then written in the bytes that a book is submitted in.
//!
//! `Draft::new`, also the default, is the draft in hand at first, and `start` sets it up anew for a number of atoms.
//! `add` takes in one rule, and `write` hands out the book; a draft can be added to and written again.
#![tactic(auto)]

mod bytes;
pub mod draft;
mod new_rule;
mod rows;
