ghost use Rattle.std.specs.Prelude.{◌≡◌};
ghost use Rattle.analysis.specs.Rivals.{among};
ghost use Rattle.table_file.specs.Frames.{meaning};
ghost use Rattle.table_file.specs.Stored.{numbers};
ghost use Rattle.table_file.specs.Progress.{begin, step_cores, step_task, check_place, step_place, step, finish, view, Steps};

use crate::fault::{Fault, Number};
use crate::frames::{Cores, Frame};
use crate::place::Place;
use crate::stretch::Fields;
use analysis::checks::is_within_limits;
use analysis::task::Task;
use arrayvec::ArrayVec;
use interference::limits::MOST_CORES;

// Which frames are due: the core count, tasks or places, places only.
#[derive(Clone, Copy)]
pub(crate) enum Phase {
    Start,
    Tasks,
    Places,
}

// What was read of a file so far.
#[derive(Drop)]
pub(crate) struct Reader {
    pub(crate) phase: Phase,
    pub(crate) cores: u32,
    pub(crate) tasks: ArrayVec<Task, 32>,
    pub(crate) places: ArrayVec<Place, 32>,
}

impl Reader {
    pub(crate) fn new() -> Reader
        ensures { view result ≡ begin }
    {
        Reader {
            phase: Phase::Start,
            cores: 1,
            tasks: ArrayVec::new(),
            places: ArrayVec::new(),
        }
    }

    // One frame more. What it means depends on the phase and its kind together.
    pub(crate) fn accept(&mut self, frame: Frame) -> Result<(), Fault>
        ensures { Steps (step (view self.old) (meaning frame.entry)) result self.old self.new }
    {
        match (self.phase, frame) {
            (Phase::Start, Frame::Cores(fields)) => self.take_cores(fields),
            (Phase::Tasks, Frame::Task(fields)) => self.take_task(fields),
            (Phase::Tasks, Frame::Place(fields)) => self.take_place(fields),
            (Phase::Places, Frame::Place(fields)) => self.take_place(fields),
            (_, Frame::Cores(fields)) => Err(Fault::of_line(Number::NotDue, fields.line)),
            (_, Frame::Task(fields)) => Err(Fault::of_line(Number::NotDue, fields.line)),
            (_, Frame::Place(fields)) => Err(Fault::of_line(Number::NotDue, fields.line)),
        }
    }

    // Each of these three tests the rules of its own frame.
    fn take_cores(&mut self, fields: Fields<2>) -> Result<(), Fault>
        ensures { Steps (step_cores (view self.old) fields.entry.digits.now fields.entry.line) result self.old self.new }
    {
        let Cores(cores) = Cores::from(fields);
        if cores < 1 || cores > MOST_CORES {
            return Err(Fault::of_line(Number::CoreCount, fields.line));
        }
        self.cores = cores;
        self.phase = Phase::Tasks;
        Ok(())
    }

    fn take_task(&mut self, fields: Fields<12>) -> Result<(), Fault>
        ensures { Steps (step_task (view self.old) fields.entry.digits.now fields.entry.line) result self.old self.new }
    {
        if self.tasks.is_full() {
            return Err(Fault::of_line(Number::TableFull, fields.line));
        }
        let task = Task::from(fields);
        if !is_within_limits(&task) {
            return Err(Fault::of_line(Number::Limits, fields.line));
        }
        self.tasks.push(task);
        self.phase = Phase::Tasks;
        Ok(())
    }

    fn take_place(&mut self, fields: Fields<6>) -> Result<(), Fault>
        ensures { Steps (step_place (view self.old) fields.entry.digits.now fields.entry.line) result self.old self.new }
    {
        if self.places.len() >= self.tasks.len() {
            return Err(Fault::of_line(Number::NotDue, fields.line));
        }
        let place = Place::from(fields);
        self.check_place(place, fields.line)?;
        self.places.push(place);
        self.phase = Phase::Places;
        Ok(())
    }

    // Refuses a place for its task or its length.
    fn check_place(&self, place: Place, line: u16) -> Result<(), Fault>
        ensures { result ≡ check_place (view self.now) place line }
    {
        let number = place.task as usize;
        if number < 1 || number > self.tasks.len() {
            return Err(Fault::of_line(Number::NoSuchTask, line));
        }
        if is_named(&self.places, place.task) {
            return Err(Fault::of_line(Number::NamedAgain, line));
        }
        if place.length < 1 || place.length > self.tasks[number - 1].cost {
            return Err(Fault::of_line(Number::Length, line));
        }
        Ok(())
    }

    // Refuses a file that ends too early; its next line would be `line`.
    pub(crate) fn finish(&self, line: u16) -> Result<(), Fault>
        ensures { result ≡ finish (view self.now) line }
    {
        match self.phase {
            Phase::Start => Err(Fault::of_line(Number::NotDue, line)),
            Phase::Places if self.places.len() < self.tasks.len() => {
                Err(Fault::of_line(Number::NotDue, line))
            }
            _ => Ok(()),
        }
    }
}

// Whether the task has a place already.
fn is_named(places: &[Place], task: u32) -> bool
    ensures { result ≡ among (numbers places.now) task }
{
    places.iter().any(|p| p.task == task)
}
