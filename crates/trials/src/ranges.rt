use analysis::task::Task;
use std::alloc::{AllocError, Global};

// The numbers from a least to a greatest one.
#[derive(Clone, Copy)]
struct Span {
    least: u32,
    most: u32,
}

impl Span {
    fn size(self) -> u32 {
        self.most
            .saturating_sub(self.least)
            .saturating_add(1)
            .max(1)
    }
}

// A span of numbers for each task, by number.
#[derive(Drop)]
pub struct Ranges {
    spans: Vec<Span>,
}

impl Ranges {
    // Region lengths: from 1 to the cost.
    pub fn lengths(heap: Global, tasks: &[Task]) -> Result<Ranges, AllocError> {
        Ranges::each(
            heap,
            tasks,
            |t| Span {
                least: 1,
                most: t.cost,
            },
        )
    }

    // Bounds: from the cost to the deadline.
    pub fn bounds(heap: Global, tasks: &[Task]) -> Result<Ranges, AllocError> {
        Ranges::each(
            heap,
            tasks,
            |t| Span {
                least: t.cost,
                most: t.deadline,
            },
        )
    }

    fn each<F: Fn(&Task) -> Span>(
        heap: Global,
        tasks: &[Task],
        span: F,
    ) -> Result<Ranges, AllocError>
        requires pre { (f : _) (a : _) → F.FnMut.pre f a }
    {
        let spans = tasks.iter().map(span).collect(heap)?;
        Ok(Ranges { spans })
    }

    // The least number of each.
    pub fn least(&self, heap: Global) -> Result<Vec<u32>, AllocError> {
        self.spans.iter().map(|s| s.least).collect(heap)
    }

    // The greatest number of each.
    pub fn most(&self, heap: Global) -> Result<Vec<u32>, AllocError> {
        self.spans.iter().map(|s| s.most).collect(heap)
    }

    // How many ways there are to take a number from each span.
    pub fn count(&self) -> u32 {
        self.spans
            .iter()
            .fold(1u32, |all, s| all.saturating_mul(s.size()))
    }

    // One of these ways, by its number from 0.
    pub fn nth(&self, heap: Global, number: u32) -> Result<Vec<u32>, AllocError> {
        let mut rest = number;
        let mut taken = Vec::new(heap);
        for s in &self.spans {
            let size = s.size().max(1);
            taken.push(s.least.saturating_add(rest % size))?;
            rest = rest / size;
        }
        Ok(taken)
    }
}
