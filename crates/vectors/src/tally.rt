// What was run, and what came of it.
use anyhow::ensure;
use std::ops::Add;

// How many vectors of a set were run, and how many came out as expected.
#[derive(Clone, Copy, Default)]
pub(crate) struct Tally {
    run: usize,
    as_expected: usize,
}

impl Tally {
    // Counts one vector, and names it where it differs.
    pub(crate) fn note(&mut self, rt: &HostRuntime, name: &str, same: bool) -> anyhow::Result<()> {
        self.run = self.run.saturating_add(1);
        if same {
            self.as_expected = self.as_expected.saturating_add(1);
        } else {
            println!(rt; "differs: {name}")?;
        }
        Ok(())
    }

    // The line of the set; a difference is an error.
    pub(crate) fn report(self, rt: &HostRuntime, set: &str) -> anyhow::Result<()> {
        let run = self.run;
        let same = self.as_expected;
        println!(rt; "{set}: {run} run, {same} as expected")?;
        ensure!(run == same, "a vector differs");
        Ok(())
    }
}

impl Add for Tally {
    type Output = Tally;

    fn add(self, other: Tally) -> Tally {
        Tally {
            run: self.run.saturating_add(other.run),
            as_expected: self.as_expected.saturating_add(other.as_expected),
        }
    }
}
