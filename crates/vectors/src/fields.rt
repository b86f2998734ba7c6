// The fields of a vector's line. A dash stands for none, of bytes as of digits.
use anyhow::ensure;
use std::alloc::{AllocError, Global};
use std::fmt;
use std::fmt::Display;

// The first field of a line, and the rest of the line.
pub(crate) fn split(line: &str) -> (&str, &str) {
    line.split_once(' ').unwrap_or((line, ""))
}

fn none_for_dash(field: &str) -> &str {
    if field == "-" { "" } else { field }
}

// The bytes of a field in hexadecimal, whose letters are small. A last character that is left over, as a dash is, stands
// for none.
pub(crate) fn bytes(heap: Global, field: &str) -> anyhow::Result<Vec<u8>> {
    let digits = &field.as_bytes()[..field.len() / 2 * 2];
    ensure!(
        digits
            .iter()
            .all(|digit| matches!(digit, b'0'..=b'9' | b'a'..=b'f')),
        "a field is not in hexadecimal"
    );
    let mut found = vec![in heap; 0; digits.len() / 2]?;
    hex::decode_to_slice(digits, found.as_mut_slice())?;
    Ok(found)
}

// The digits of a sheet or a page, one a byte.
pub(crate) fn digits(heap: Global, field: &str) -> Result<Vec<u8>, AllocError> {
    none_for_dash(field)
        .bytes()
        .map(|digit| digit.wrapping_sub(b'0'))
        .collect(heap)
}

// Whether each sheet of a register, which is COUNT SHEET SHEET .., passes a test. One is held at a time, and the first
// that does not pass is the last that is looked at.
pub(crate) fn all_sheets<F: FnMut(Vec<u8>) -> bool>(
    heap: Global,
    register: &str,
    mut test: F,
) -> Result<bool, AllocError>
    requires { F.IsAlwaysCallable test }
{
    for sheet in register.split(' ').skip(1) {
        if !test(digits(heap, sheet)?) {
            return Ok(false);
        }
    }
    Ok(true)
}

// A sheet or a page as a field.
#[derive(Clone, Copy)]
pub(crate) struct Field<'a>(pub(crate) &'a [u8]);

impl Display for Field<'_> {
    fn fmt<W: fmt::Write>(&self, f: &mut fmt::Formatter<W>) -> fmt::Result {
        if self.0.is_empty() {
            return f.write_str("-");
        }
        for digit in self.0 {
            write!(f, "{digit}")?;
        }
        Ok(())
    }
}

// Whether a value is printed as a vector expects it.
pub(crate) fn prints_as(
    heap: Global,
    value: impl Display + Drop,
    expected: &str,
) -> Result<bool, AllocError> {
    let text = value.to_string(heap)?;
    Ok(text.as_str() == expected)
}
