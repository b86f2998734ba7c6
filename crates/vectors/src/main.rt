//! Runs the library on outside vectors, books and what is expected of them, and compares.
//! A line a set says how many there were and how many came out as expected; a difference is shown by name.
#![tactic(auto)]

mod applying;
mod books;
mod checking;
mod drafting;
mod fields;
mod reading;
mod tally;

use layers::stacks::{Basic, Full};
use std::fs;

fn main(rt: HostRuntime) -> anyhow::Result<()> {
    let malformed = fs::read_to_string(&rt, "malformed.txt")?;
    reading::declined(&rt, malformed.as_str())?.report(
        &rt,
        "books declined with the expected fault",
    )?;
    let registers = fs::read_to_string(&rt, "registers.txt")?;
    reading::accepted(&rt, registers.as_str())?.report(&rt, "books accepted")?;
    checking::small_books(&rt, registers.as_str())?.report(
        &rt,
        "registers by a check of every sheet",
    )?;
    checking::large_books(&rt, registers.as_str())?.report(
        &rt,
        "registers by a check of their sheets",
    )?;
    let pages = fs::read_to_string(&rt, "pages.txt")?;
    applying::pages(&rt, registers.as_str(), pages.as_str())?.report(&rt, "operators on pages")?;
    let basic = applying::open_pages(&rt, registers.as_str(), Basic)?;
    let full = applying::open_pages(&rt, registers.as_str(), Full)?;
    (basic + full).report(&rt, "stacks on open pages, held to the registers")?;
    drafting::rewritten(&rt, registers.as_str())?.report(&rt, "books written again from a draft")?;
    let drafts = fs::read_to_string(&rt, "drafts.txt")?;
    drafting::scripts(&rt, drafts.as_str())?.report(&rt, "calls of drafts")
}
