// Sheets: one byte an atom, 1 for in and 0 for out. In the field a sheet is an interpretation.
ghost use Rattle.std.specs.Prelude.{◌≡◌, ℕ, ◌≤◌, length, OnOk, slice_index};
ghost use Rattle.std.specs.Result.{result_err};
ghost use Rattle.answer.specs.Answer.{Sheet};
ghost use Rattle.answer.specs.Fault.{value_fault, values_fault, bytes_fault, sheet_fault};

use book::refusal::{Cause, Refusal};

// Declines bytes that are no sheet over n atoms: a length other than n, else the first byte above 1.
pub fn check_sheet(n: usize, sheet: &[u8]) -> Result<(), Refusal>
    ensures declines { result_err result ≡ sheet_fault n sheet.now }
    ensures sheet { OnOk result (Sheet n sheet.now) }
{
    check_bytes(n, 1, sheet)
}

// Declines bytes that are not n, else the first byte above the most that it may be.
pub fn check_bytes(n: usize, most: u8, bytes: &[u8]) -> Result<(), Refusal>
    ensures declines { result_err result ≡ bytes_fault most n bytes.now }
    ensures long { OnOk result (length bytes.now ≡ n) }
    ensures small { OnOk result ((i : ℕ) → slice_index bytes.now i ≤ most) }
{
    if bytes.len() != n {
        return Err(Refusal::new(Cause::Length, bytes.len()));
    }
    check_values(most, bytes)
}

// The bytes one by one.
fn check_values(most: u8, bytes: &[u8]) -> Result<(), Refusal>
    ensures declines { result_err result ≡ values_fault most bytes.now (length bytes.now) }
    ensures small { OnOk result ((i : ℕ) → slice_index bytes.now i ≤ most) }
{
    for (i, &value) in bytes.iter().enumerate() {
        check_value(most, i, value)?;
    }
    Ok(())
}

fn check_value(most: u8, i: usize, value: u8) -> Result<(), Refusal>
    ensures { result_err result ≡ value_fault most i value }
{
    if value > most {
        return Err(Refusal::new(Cause::Value, i));
    }
    Ok(())
}

// The byte at an index, or 0 past the end.
pub(crate) fn byte_at(bytes: &[u8], i: usize) -> u8
    ensures { result ≡ slice_index bytes.now i }
{
    bytes.get(i).copied().unwrap_or(0)
}
