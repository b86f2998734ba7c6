//! What small books pass, sheet by sheet.
#![tactic(auto)]

#[cfg(test)]
mod tests;
