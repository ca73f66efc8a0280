use planner::marks::Marks;
use planner::replay::{Outcome, Report, Standing};
use std::fmt;

// A report in one line: what came of the call, and the table.
#[derive(Clone, Copy)]
pub struct Line<'a>(pub &'a Report);

impl<'a> fmt::Display for Line<'a> {
    fn fmt<W: fmt::Write>(&self, f: &mut fmt::Formatter<W>) -> fmt::Result {
        let report = self.0;
        match report.outcome {
            Outcome::Done => write!(f, "done")?,
            Outcome::Refused(refusal) => write!(f, "refused by {}", u8::from(refusal))?,
            Outcome::NotApplicable => write!(f, "not applicable")?,
        }
        match &report.fixed {
            Some(standing) => write_fixed(f, report, standing),
            None => write_open(f, report),
        }
    }
}

fn write_open<W: fmt::Write>(f: &mut fmt::Formatter<W>, report: &Report) -> fmt::Result {
    write!(f, "; open on {}:", report.cores)?;
    for t in report.tasks.iter().take(report.count) {
        write!(f, " {}/{}/{}", t.cost, t.deadline, t.period)?;
    }
    Ok(())
}

fn write_fixed<W: fmt::Write>(
    f: &mut fmt::Formatter<W>,
    report: &Report,
    standing: &Standing,
) -> fmt::Result {
    write!(f, "; fixed on {}: order", report.cores)?;
    write_numbers(f, report, &standing.places)?;
    write!(f, "; lengths")?;
    write_numbers(f, report, &standing.lengths)?;
    write!(f, "; bounds")?;
    write_numbers(f, report, &standing.bounds)?;
    write_marks(f, standing.marks)
}

fn write_numbers<W: fmt::Write>(
    f: &mut fmt::Formatter<W>,
    report: &Report,
    numbers: &[u32],
) -> fmt::Result {
    for x in numbers.iter().take(report.count) {
        write!(f, " {x}")?;
    }
    Ok(())
}

fn write_marks<W: fmt::Write>(f: &mut fmt::Formatter<W>, marks: Marks) -> fmt::Result {
    if marks.passed {
        write!(f, "; passed")?;
    }
    if marks.bounded {
        write!(f, "; bounded")?;
    }
    Ok(())
}
