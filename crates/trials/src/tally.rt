use std::fmt;

// So many differences of one kind are printed, and all are counted.
const MOST_PRINTED: u32 = 3;

// How many results differed.
#[derive(Clone, Copy, Default)]
struct Differences(u32);

impl Differences {
    // Says whether the result is to be printed.
    fn count(&mut self, agrees: bool) -> bool {
        if !agrees {
            self.0 = self.0.saturating_add(1);
        }
        !agrees && self.0 <= MOST_PRINTED
    }
}

// Comparisons of two numbers.
#[derive(Clone, Copy, Default)]
pub struct Checks {
    compared: u32,
    differed: Differences,
}

impl Checks {
    // Says whether the comparison is to be printed.
    pub fn count(&mut self, agrees: bool) -> bool {
        self.compared = self.compared.saturating_add(1);
        self.differed.count(agrees)
    }
}

impl fmt::Display for Checks {
    fn fmt<W: fmt::Write>(&self, f: &mut fmt::Formatter<W>) -> fmt::Result {
        write!(
            f,
            "{} compared, {} differed",
            self.compared, self.differed.0
        )
    }
}

// What trying everything comes to.
#[derive(Clone, Copy, PartialEq, Eq)]
pub enum Outcome {
    Nothing,
    // the first try is the result
    AtOnce,
    Later,
}

// Results of one kind, by what trying everything came to, and how many times a search differed from that.
#[derive(Clone, Copy, Default)]
pub struct Tally {
    nothing: u32,
    at_once: u32,
    later: u32,
    differed: Differences,
}

impl Tally {
    // Says whether the result is to be printed.
    pub fn count(&mut self, outcome: Outcome, agrees: bool) -> bool {
        match outcome {
            Outcome::Nothing => self.nothing = self.nothing.saturating_add(1),
            Outcome::AtOnce => self.at_once = self.at_once.saturating_add(1),
            Outcome::Later => self.later = self.later.saturating_add(1),
        }
        self.differed.count(agrees)
    }

    fn compared(&self) -> u32 {
        self.nothing
            .saturating_add(self.at_once)
            .saturating_add(self.later)
    }
}

impl fmt::Display for Tally {
    fn fmt<W: fmt::Write>(&self, f: &mut fmt::Formatter<W>) -> fmt::Result {
        let compared = self.compared();
        write!(
            f,
            "{compared} compared ({} the first try, {} a later one, {} none), {} differed",
            self.at_once, self.later, self.nothing, self.differed.0
        )
    }
}

// What was compared under one rule with one kind of search; there are no bounds where the kind does not seek them.
#[derive(Clone, Copy, Default)]
pub struct Scores {
    pub sums: Checks,
    pub lengths: Tally,
    pub plans: Tally,
    pub bounds: Option<Tally>,
}

impl Scores {
    pub fn differed(&self) -> u32 {
        let bounds = match self.bounds {
            Some(tally) => tally.differed.0,
            None => 0,
        };
        self.sums
            .differed
            .0
            .saturating_add(self.lengths.differed.0)
            .saturating_add(self.plans.differed.0)
            .saturating_add(bounds)
    }
}

impl fmt::Display for Scores {
    fn fmt<W: fmt::Write>(&self, f: &mut fmt::Formatter<W>) -> fmt::Result {
        writeln!(f, "  sums: {}", self.sums)?;
        writeln!(f, "  least lengths: {}", self.lengths)?;
        write!(f, "  first plans: {}", self.plans)?;
        match self.bounds {
            Some(tally) => write!(f, "\n  least bounds: {tally}"),
            None => Ok(()),
        }
    }
}
