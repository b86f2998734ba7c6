// What next and wish decline.
ghost use Rattle.std.specs.Prelude.{◌≡◌};
ghost use Rattle.std.specs.Result.{result_err};
ghost use Rattle.inquiry.specs.Calls.{next_fault, wish_fault};

use book::refusal::{Cause, Refusal};
use operator::page::IN;

// The most steps that one call may be allowed.
pub const MAX_ALLOWANCE: u32 = 1_000_000;

// An allowance of none or too many steps, then a buffer that is too short for a sheet of n bytes.
pub(crate) fn check_next(n: usize, allowance: u32, room: usize) -> Result<(), Refusal>
    ensures { result_err result ≡ next_fault n allowance room }
{
    if !(1..=MAX_ALLOWANCE).contains(&allowance) {
        return Err(Refusal::new(Cause::Allowance, 0));
    }
    if room < n {
        return Err(Refusal::new(Cause::Buffer, n));
    }
    Ok(())
}

// An atom that the book does not have, then a value that is no wish.
pub(crate) fn check_wish(n: usize, atom: usize, value: u8) -> Result<(), Refusal>
    ensures { result_err result ≡ wish_fault n atom value }
{
    if atom >= n {
        return Err(Refusal::new(Cause::Range, 0));
    }
    if value > IN {
        return Err(Refusal::new(Cause::Value, 0));
    }
    Ok(())
}
