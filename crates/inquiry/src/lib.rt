//! Inquiries: the answer sets of a book, found one after another in ascending order. In the field an enumeration.
//!
//! `Inquiry::open` begins one over a book. `next` finds the next sheet with any lawful operator, `wish` asks for atoms
//! in or out, `seek` takes the list up again after a sheet, and `rewind` from the start.
#![tactic(auto)]

mod admit;
pub mod inquiry;
mod judge;
pub mod kind;
mod state;
mod step;
mod walk;
