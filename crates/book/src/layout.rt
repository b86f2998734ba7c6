// The layers of a book, one after the other, and what it means that they have no fault.
ghost use Rattle.std.specs.Prelude.{◌≡◌, IfOk, MatchResult};
ghost use Rattle.std.specs.Result.{result_err};
ghost use Rattle.book.specs.Layout.{decode};
ghost use Rattle.book.specs.Reading.{Holds, HoldsNone, DifferentForms};
ghost use Rattle.book.specs.Diagnosis.{layout_fault};

use crate::faults::RuleFault;
use crate::header::Header;

// Both hand on the header that reading made, and so say again whose bytes it holds.
fn check_layers(bytes: &[u8]) -> Result<Header<'_>, RuleFault>
    ensures declines { result_err result ≡ layout_fault bytes.now }
    ensures bytes { IfOk result (λ h. h.bytes.now ≡ bytes.now) }
{
    let header = Header::read(bytes)?;
    header.check_entries()?;
    header.check_bodies()?;
    Ok(header)
}

// What the diagnosis means, said of all exits of the layers at once.
pub(crate) fn check_layout(bytes: &[u8]) -> Result<Header<'_>, RuleFault>
    ensures declines { result_err result ≡ layout_fault bytes.now }
    ensures bytes { IfOk result (λ h. h.bytes.now ≡ bytes.now) }
    ensures holds { MatchResult result (λ _. Holds bytes.now (decode bytes.now)) (λ _. HoldsNone bytes.now) }
    ensures different { DifferentForms }
{
    check_layers(bytes)
}
