use crate::ranges::Ranges;
use crate::tally::Outcome;
use std::alloc::Global;
use std::io;

// What trying everything leaves of the lists that hold: what it came to, and the least number in each place over all
// of them. The values are `None` where there is no such list, or where these least numbers do not hold together; the
// outcome stands beside them, since it is counted in either case.
#[derive(Drop)]
pub struct Least {
    pub outcome: Outcome,
    pub values: Option<Vec<u32>>,
}

impl Least {
    // Tries every list within the ranges.
    pub fn of<F: FnMut(&[u32]) -> io::Result<bool>>(
        heap: Global,
        ranges: &Ranges,
        mut holds: F,
    ) -> io::Result<Least>
        requires { F.IsAlwaysCallable holds }
    {
        let mut outcome = Outcome::Nothing;
        let mut values = ranges.most(heap)?;
        for i in 0..ranges.count() {
            let list = ranges.nth(heap, i)?;
            if holds(&list)? {
                outcome = match outcome {
                    Outcome::Nothing if i == 0 => Outcome::AtOnce,
                    Outcome::Nothing => Outcome::Later,
                    found => found,
                };
                lower(&mut values, &list);
            }
        }
        let values = if holds(&values)? && outcome != Outcome::Nothing {
            Some(values)
        } else {
            None
        };
        Ok(Least { outcome, values })
    }

    // Whether a search found just this, filled up behind the last task.
    pub fn agrees(&self, found: Option<&[u32; 32]>, filler: u32) -> bool {
        match (found, &self.values) {
            (None, _) => self.outcome == Outcome::Nothing,
            (Some(list), Some(values)) => is_filled(list, values, filler),
            _ => false,
        }
    }
}

// Takes each number down to that of another list.
fn lower(values: &mut [u32], list: &[u32]) {
    for (v, x) in values.iter_mut().zip(list) {
        *v = (*v).min(*x);
    }
}

// Whether a list is another one, filled up to its own length.
pub fn is_filled<T: PartialEq + Copy>(list: &[T], values: &[T], filler: T) -> bool {
    match list.strip_prefix(values) {
        Some(rest) => rest.iter().all(|x| *x == filler),
        None => false,
    }
}
