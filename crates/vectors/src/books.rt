// The books of a set, whose lines are NAME BOOK and what is expected of the book.
use crate::fields;
use crate::tally::Tally;
use anyhow::Context;
use book::book::Book;

const DECLINED: &str = "a book is declined";

// The book that bytes hold.
pub(crate) fn book_of(bytes: &[u8]) -> anyhow::Result<Book<'_>> {
    Book::try_from(bytes).ok().context(DECLINED)
}

// The book of a name among the lines, as the field that it is. A name without a line is an error in the same words.
pub(crate) fn book_named<'a>(set: &'a str, wanted: &str) -> anyhow::Result<&'a str> {
    let (_, rest) = set
        .lines()
        .map(fields::split)
        .find(|(name, _)| *name == wanted)
        .context(DECLINED)?;
    let (book, _) = fields::split(rest);
    Ok(book)
}

// Tests the bytes of each book against what is expected. A test answers nothing for a book that it leaves out.
pub(crate) fn test_bytes<F: Fn(&[u8], &str) -> anyhow::Result<Option<bool>>>(
    rt: &HostRuntime,
    set: &str,
    test: F,
) -> anyhow::Result<Tally>
    requires { F.IsAlwaysCallable test }
{
    let mut tally = Tally::default();
    for line in set.lines() {
        let (name, rest) = fields::split(line);
        let (book, expected) = fields::split(rest);
        let bytes = fields::bytes(rt.alloc(), book)?;
        if let Some(same) = test(bytes.as_slice(), expected)? {
            tally.note(rt, name, same)?;
        }
    }
    Ok(tally)
}

// The same with each book in use; one that is declined is an error.
pub(crate) fn test_books<F: Fn(&Book, &str) -> anyhow::Result<Option<bool>>>(
    rt: &HostRuntime,
    set: &str,
    test: F,
) -> anyhow::Result<Tally>
    requires { F.IsAlwaysCallable test }
{
    test_bytes(rt, set, |bytes, expected| test(&book_of(bytes)?, expected))
}
