// Operators and stacks, each applied once to a page.
use crate::books::{book_named, book_of, test_books};
use crate::fields;
use crate::fields::{Field, all_sheets, prints_as};
use crate::tally::Tally;
use anyhow::{Context, bail};
use book::book::Book;
use layers::lookahead::Lookahead;
use layers::stacks::{Basic, Full};
use operator::backward::Backward;
use operator::forward::Forward;
use operator::operator::{Operator, Verdict};
use operator::page::{IN, OUT};
use operator::unfounded::Unfounded;
use std::alloc::{AllocError, Global};

// NAME OPERATOR PAGE = PAGE, or = clash; the book of the name stands among the registers.
pub(crate) fn pages(rt: &HostRuntime, registers: &str, vectors: &str) -> anyhow::Result<Tally> {
    let mut tally = Tally::default();
    for line in vectors.lines() {
        let (asked, expected) = line.split_once(" = ").context("no answer")?;
        let (name, rest) = fields::split(asked);
        let (operator, page) = fields::split(rest);
        let bytes = fields::bytes(rt.alloc(), book_named(registers, name)?)?;
        let book = book_of(bytes.as_slice())?;
        let mut page = fields::digits(rt.alloc(), page)?;
        let same = match apply_named(operator, &book, page.as_mut_slice())? {
            Verdict::Clash => expected == "clash",
            Verdict::Marked => prints_as(rt.alloc(), Field(page.as_slice()), expected)?,
        };
        tally.note(rt, line, same)?;
    }
    Ok(tally)
}

// Each arm applies its own: one `&mut dyn Operator` made in the arms was tried, and the borrow checker does not cover it.
fn apply_named(name: &str, book: &Book, page: &mut [u8]) -> anyhow::Result<Verdict> {
    let answer = match name {
        "forward" => Forward.apply(book, page),
        "backward" => Backward.apply(book, page),
        "unfounded" => Unfounded.apply(book, page),
        "basic" => Basic.apply(book, page),
        "full" => Full.apply(book, page),
        "lookahead-basic" => Lookahead { below: Basic }.apply(book, page),
        _ => bail!("no such operator"),
    };
    answer.ok().context("a page is declined")
}

// NAME BOOK COUNT SHEET ..: what the stack makes of the open page fits every sheet of the register, and the stack
// clashes only where there is none.
pub(crate) fn open_pages<O: Operator + Copy>(
    rt: &HostRuntime,
    registers: &str,
    stack: O,
) -> anyhow::Result<Tally> {
    test_books(rt, registers, |book, register| {
        Ok(Some(stack_fits(rt.alloc(), stack, book, register)?))
    })
}

fn stack_fits<O: Operator + Drop>(
    heap: Global,
    mut stack: O,
    book: &Book,
    register: &str,
) -> anyhow::Result<bool> {
    let mut page = vec![in heap; 0; book.atoms() + book.rules()]?;
    match stack.apply(book, page.as_mut_slice())? {
        Verdict::Clash => Ok(register == "0"),
        Verdict::Marked => Ok(all_fit(heap, page.as_slice(), register)?),
    }
}

fn all_fit(heap: Global, page: &[u8], register: &str) -> Result<bool, AllocError> {
    all_sheets(heap, register, |sheet| fits(page, sheet.as_slice()))
}

// Whether each atom that the page marks, a byte each, is as in the sheet.
fn fits(page: &[u8], sheet: &[u8]) -> bool {
    page.iter().zip(sheet).all(|(&mark, &value)| match mark {
        OUT => value == 0,
        IN => value == 1,
        _ => true,
    })
}
