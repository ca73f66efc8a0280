use crate::dice::Dice;
use analysis::task::Task;
use std::alloc::{AllocError, Global};
use std::fmt;

// Tasks on so many cores, by number.
#[derive(Drop)]
pub struct Table {
    pub cores: u32,
    pub tasks: Vec<Task>,
}

fn roll_task(dice: &mut Dice) -> Task {
    let cost = dice.roll(1, 6);
    let deadline = dice.roll(cost, 12);
    let period = dice.roll(deadline, 14);
    Task {
        cost,
        deadline,
        period,
    }
}

impl Table {
    // A table within all limits, small enough to try everything on it.
    pub fn roll(heap: Global, dice: &mut Dice, count: u32) -> Result<Table, AllocError> {
        let cores = dice.roll(1, 3);
        let mut tasks = Vec::new(heap);
        for _ in 0..count {
            tasks.push(roll_task(dice))?;
        }
        Ok(Table { cores, tasks })
    }
}

impl fmt::Display for Table {
    fn fmt<W: fmt::Write>(&self, f: &mut fmt::Formatter<W>) -> fmt::Result {
        write!(f, "  cores: {}", self.cores)?;
        for t in &self.tasks {
            write!(f, "\n  {t}")?;
        }
        Ok(())
    }
}
