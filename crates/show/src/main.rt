//! Prints a book from standard input: how many atoms and rules it has, then its rules one a line.
//! A book that is declined is one line: the layer, the cause and the byte of its first fault.
#![tactic(auto)]

use book::book::Book;
use book::book::iter::Atoms;
use book::book::rules::Rule;
use std::fmt;
use std::io::Read;

// A literal of a body: an atom that must be in, or one that must be out.
#[derive(Clone, Copy)]
enum Literal {
    Positive(usize),
    Negative(usize),
}

impl fmt::Display for Literal {
    fn fmt<W: fmt::Write>(&self, f: &mut fmt::Formatter<W>) -> fmt::Result {
        match self {
            Literal::Positive(atom) => write!(f, "{atom}"),
            Literal::Negative(atom) => write!(f, "not {atom}"),
        }
    }
}

// A rule as a line: the head, and after an arrow what must be in and what must be out.
#[derive(Drop)]
struct Line<'a>(Rule<'a>);

impl fmt::Display for Line<'_> {
    fn fmt<W: fmt::Write>(&self, f: &mut fmt::Formatter<W>) -> fmt::Result {
        let head = self.0.head;
        write!(f, "{head}")?;
        let positives = Atoms::of(self.0.positives).map(Literal::Positive);
        let negatives = Atoms::of(self.0.negatives).map(Literal::Negative);
        let mut first = true;
        for literal in positives.chain(negatives) {
            let before = if first { " <- " } else { ", " };
            write!(f, "{before}{literal}")?;
            first = false;
        }
        Ok(())
    }
}

// A book as lines: its counts, and a line for each rule.
#[derive(Drop)]
struct Lines<'a>(Book<'a>);

impl fmt::Display for Lines<'_> {
    fn fmt<W: fmt::Write>(&self, f: &mut fmt::Formatter<W>) -> fmt::Result {
        let atoms = self.0.atoms();
        let rules = self.0.rules();
        writeln!(f, "atoms {atoms} rules {rules}")?;
        for line in self.0.iter().map(Line) {
            writeln!(f, "{line}")?;
        }
        Ok(())
    }
}

fn main(rt: HostRuntime) -> anyhow::Result<()> {
    let mut input = Vec::new(rt.alloc());
    rt.stdin().read_to_end(&mut input)?;
    match Book::try_from(input.as_slice()) {
        Ok(book) => rt.print(Lines(book))?,
        Err(fault) => rt.println(fault)?,
    }
    Ok(())
}
