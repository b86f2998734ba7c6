//! Books of rules: the bytes that a book is submitted in, the book in use over them, and its rules.
//!
//! `Book::try_from` answers with the book that bytes hold, or declines. `Book::empty` is the book of nothing, and
//! `Book::read` puts another in the place of the one in hand.
//! A book in use says how many atoms and rules it has, and hands out a rule by its number, or by `iter` one after
//! another. `Atoms::of` goes through the atoms of a part, and `atom_at` gives one of them.
#![tactic(auto)]

mod bodies;
pub mod book;
mod contents;
pub mod faults;
mod header;
mod layout;
pub mod limits;
pub mod refusal;
