ghost use Rattle.std.specs.Prelude.{◌≡◌, ◌≢◌, ◌+◌, ◌*◌, ◌≤◌, length, MatchResult};
ghost use Rattle.table_file.specs.declared.fault.Number.TheVariants.{Size};
ghost use Rattle.table_file.specs.Numbers.{fault_at};
ghost use Rattle.table_file.specs.Digits.{AllDigits, byte_at};
ghost use Rattle.table_file.specs.Frames.{form_of, seen_frame, task_of, place_of};

use crate::digits::byte_of;
use crate::fault::{Fault, Number};
use crate::kind::Kind;
use crate::place::Place;
use crate::stretch::{Fields, Stretch};
use analysis::task::Task;

// The core count of a file.
#[derive(Clone, Copy)]
pub(crate) struct Cores(pub(crate) u32);

// A frame by its kind, with as many digits as its kind asks for.
#[derive(Clone, Copy)]
pub(crate) enum Frame<'a> {
    Cores(Fields<'a, 2>),
    Task(Fields<'a, 12>),
    Place(Fields<'a, 6>),
}

// The frame of a line, by its kind and the number of its bytes.
pub(crate) fn frame_of<'a>(s: Stretch<'a>) -> Result<Frame<'a>, Fault>
    ensures { seen_frame result ≡ form_of s.entry.digits.now s.entry.line }
{
    let line = s.line;
    let [high, low, digits @ ..] = s.digits else {
        unreachable()
    };
    match Kind::try_from(byte_of(*high, *low)) {
        Ok(Kind::Cores) => Ok(Frame::Cores(sized(digits, line)?)),
        Ok(Kind::Task) => Ok(Frame::Task(sized(digits, line)?)),
        Ok(Kind::Place) => Ok(Frame::Place(sized(digits, line)?)),
        // a notice is no part of a table
        Ok(Kind::Notice) | Err(_) => Err(Fault::of_line(Number::Kind, line)),
    }
}

// Refuses fields of another size. No kind has fields of more than 12 digits.
fn sized<'a, const N: usize>(digits: &'a [u8], line: u16) -> Result<Fields<'a, N>, Fault>
    requires few { N ≤ 12 }
    requires hex { AllDigits digits.now }
    ensures { MatchResult result
        (λ f. (length digits.now ≡ N) × (f.digits.now ≡ digits.now) × (f.line ≡ line))
        (λ e. (length digits.now ≢ N) × (e ≡ fault_at Size line 1)) }
{
    let Some(digits) = digits.as_array() else {
        return Err(Fault::of_line(Number::Size, line));
    };
    Ok(Fields { digits, line })
}

// The core count in the fields of a frame.
impl<'a> From<Fields<'a, 2>> for Cores {
    ghost from_gives = { λ fields cores. cores.0 ≡ byte_at fields.digits.now 0 };

    fn from(fields: Fields<'a, 2>) -> Cores {
        let [high, low] = fields.digits;
        Cores(u32::from(byte_of(*high, *low)))
    }
}

// The task in the fields of a frame.
impl<'a> From<Fields<'a, 12>> for Task {
    ghost from_gives = { λ fields task. task ≡ task_of fields.digits.now };

    fn from(fields: Fields<'a, 12>) -> Task {
        let [c3, c2, c1, c0, d3, d2, d1, d0, t3, t2, t1, t0] = fields.digits;
        Task {
            cost: word_of(byte_of(*c3, *c2), byte_of(*c1, *c0)),
            deadline: word_of(byte_of(*d3, *d2), byte_of(*d1, *d0)),
            period: word_of(byte_of(*t3, *t2), byte_of(*t1, *t0)),
        }
    }
}

// The place in the fields of a frame.
impl<'a> From<Fields<'a, 6>> for Place {
    ghost from_gives = { λ fields place. place ≡ place_of fields.digits.now };

    fn from(fields: Fields<'a, 6>) -> Place {
        let [n1, n0, l3, l2, l1, l0] = fields.digits;
        Place {
            task: u32::from(byte_of(*n1, *n0)),
            length: word_of(byte_of(*l3, *l2), byte_of(*l1, *l0)),
        }
    }
}

// The number that two bytes make, the most significant first.
fn word_of(high: u8, low: u8) -> u32
    ensures { result ≡ 256 * high + low }
{
    u32::from(u16::from_be_bytes([high, low]))
}
