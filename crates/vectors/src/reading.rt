// Books that reading declines, and books that it accepts.
use crate::books::test_bytes;
use crate::fields::prints_as;
use crate::tally::Tally;
use book::book::Book;
use book::faults::BookFault;
use std::fmt;

// A fault as a vector has it, with its rule before its line.
#[derive(Clone, Copy)]
struct Fault(BookFault);

impl fmt::Display for Fault {
    fn fmt<W: fmt::Write>(&self, f: &mut fmt::Formatter<W>) -> fmt::Result {
        let fault = self.0;
        match fault.fault.rule {
            Some(rule) => write!(f, "{rule} {fault}"),
            None => write!(f, "- {fault}"),
        }
    }
}

// NAME BOOK RULE fault LAYER CAUSE BYTE
pub(crate) fn declined(rt: &HostRuntime, vectors: &str) -> anyhow::Result<Tally> {
    test_bytes(rt, vectors, |bytes, expected| {
        match Book::empty().read(bytes) {
            Ok(()) => Ok(Some(false)),
            Err(fault) => Ok(Some(prints_as(rt.alloc(), Fault(fault), expected)?)),
        }
    })
}

// NAME BOOK COUNT SHEET SHEET ..
pub(crate) fn accepted(rt: &HostRuntime, vectors: &str) -> anyhow::Result<Tally> {
    test_bytes(
        rt,
        vectors,
        |bytes, _| Ok(Some(Book::empty().read(bytes).is_ok())),
    )
}
