// Scripts of calls on a draft in hand, each call with its answer.
use crate::books::{book_of, test_bytes};
use crate::tally::Tally;
use anyhow::{Context, bail, ensure};
use book::book::Book;
use book::book::iter::Atoms;
use book::refusal::Refusal;
use draft::draft::Draft;
use std::alloc::Global;
use std::fmt;
use std::fmt::Display;

// What a buffer holds before it is written to.
const BLANK: u8 = 0xa5;

// What a draft answers to a call, as a vector has it.
#[derive(Drop)]
struct Answer<T>(Result<T, Refusal>);

impl<T: Display> Display for Answer<T> {
    fn fmt<W: fmt::Write>(&self, f: &mut fmt::Formatter<W>) -> fmt::Result {
        match &self.0 {
            Ok(done) => write!(f, "{done}"),
            Err(refusal) => {
                let number = refusal.cause.number();
                let place = refusal.place;
                write!(f, "refused {number} {place}")
            }
        }
    }
}

// The bytes that were written, after their number.
#[derive(Clone, Copy)]
struct Written<'a>(&'a [u8]);

impl Display for Written<'_> {
    fn fmt<W: fmt::Write>(&self, f: &mut fmt::Formatter<W>) -> fmt::Result {
        let length = self.0.len();
        write!(f, "written {length} ")?;
        for byte in self.0 {
            write!(f, "{byte:02x}")?;
        }
        Ok(())
    }
}

// draft NAME, and then CALL = ANSWER with the calls
//     start ATOMS, add HEAD ATOMS ATOMS, write LENGTH-OF-BUFFER
// and the answers
//     accepted, refused NUMBER PLACE, written LENGTH BYTES
pub(crate) fn scripts(rt: &HostRuntime, vectors: &str) -> anyhow::Result<Tally> {
    let mut tally = Tally::default();
    let mut draft = Draft::new();
    for line in vectors.lines() {
        match line.split_once(" = ") {
            Some((call, expected)) => {
                let answer = answer_to(rt.alloc(), &mut draft, call)?;
                tally.note(rt, line, answer.as_str() == expected)?;
            }
            None => draft = Draft::new(),
        }
    }
    Ok(tally)
}

// NAME BOOK ..: the rules of a book, put into a draft one by one, are written as the very bytes they were read from.
pub(crate) fn rewritten(rt: &HostRuntime, vectors: &str) -> anyhow::Result<Tally> {
    test_bytes(rt, vectors, |bytes, _| {
        let again = rewrite(rt.alloc(), bytes)?;
        Ok(Some(again.as_slice() == bytes))
    })
}

// The bytes of a draft of the book's rules, in a buffer as long as the book.
fn rewrite(heap: Global, bytes: &[u8]) -> anyhow::Result<Vec<u8>> {
    let draft = draft_of(heap, &book_of(bytes)?)?;
    let mut buffer = vec![in heap; BLANK; bytes.len()]?;
    draft
        .write(buffer.as_mut_slice())
        .context("a draft is not written")?;
    Ok(buffer)
}

fn draft_of(heap: Global, book: &Book) -> anyhow::Result<Draft> {
    let mut draft = Draft::new();
    draft.start(book.atoms()).context("a count is declined")?;
    for rule in book.iter() {
        let positives: Vec<usize> = Atoms::of(rule.positives).collect(heap)?;
        let negatives: Vec<usize> = Atoms::of(rule.negatives).collect(heap)?;
        draft
            .add(rule.head, positives.as_slice(), negatives.as_slice())
            .context("a rule is declined")?;
    }
    Ok(draft)
}

fn answer_to(heap: Global, draft: &mut Draft, call: &str) -> anyhow::Result<String> {
    match call.split_once(' ') {
        Some(("start", atoms)) => accepted(heap, draft.start(atoms.parse::<usize>()?)),
        Some(("add", rule)) => accepted(heap, add(heap, draft, rule)?),
        Some(("write", room)) => write(heap, draft, room.parse::<usize>()?),
        _ => bail!("no such call"),
    }
}

fn accepted(heap: Global, answer: Result<(), Refusal>) -> anyhow::Result<String> {
    let answer = Answer(answer.map(|()| "accepted"));
    Ok(answer.to_string(heap)?)
}

fn add(heap: Global, draft: &mut Draft, rule: &str) -> anyhow::Result<Result<(), Refusal>> {
    let (head, parts) = rule.split_once(' ').context("add: no parts")?;
    let (positives, negatives) = parts.split_once(' ').context("add: one part")?;
    let head = head.parse::<usize>()?;
    let positives = atoms(heap, positives)?;
    let negatives = atoms(heap, negatives)?;
    Ok(draft.add(head, positives.as_slice(), negatives.as_slice()))
}

// The atoms of a part, parted by commas; a dash stands for none.
fn atoms(heap: Global, text: &str) -> anyhow::Result<Vec<usize>> {
    if text == "-" {
        return Ok(Vec::new(heap));
    }
    text.split(',')
        .map(|atom| Ok(atom.parse::<usize>()?))
        .try_collect(heap)
}

// A buffer of that length is written to, and past what is written stays as it was.
fn write(heap: Global, draft: &Draft, room: usize) -> anyhow::Result<String> {
    let mut buffer = vec![in heap; BLANK; room]?;
    let answer = draft.write(buffer.as_mut_slice());
    let (written, rest) = buffer
        .as_slice()
        .split_at_checked(answer.unwrap_or(0))
        .context("write: longer than the buffer")?;
    ensure!(
        rest.iter().all(|&byte| byte == BLANK),
        "write: past the length"
    );
    let answer = Answer(answer.map(|_| Written(written)));
    Ok(answer.to_string(heap)?)
}
