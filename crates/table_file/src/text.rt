ghost use Rattle.std.specs.Prelude.{◌≡◌, ℕ, ◌+◌, ◌*◌, ◌<◌, ◌≤◌, List, length, slice_index_or};
ghost use Rattle.std.specs.List.{flat_map};
ghost use Rattle.analysis.specs.Rivals.{TaskWithinLimits};
ghost use Rattle.table_file.specs.Digits.{digit_text, byte_text, word_text};
ghost use Rattle.table_file.specs.FileText.{cores_line, task_line, place_line};
ghost use Rattle.table_file.specs.Puts.{put};

use crate::frames::Cores;
use crate::kind::Kind;
use crate::place::Place;
use planner::rows::Row;

pub(crate) const CORES_BYTES: usize = 5;

pub(crate) const TASK_BYTES: usize = 15;

pub(crate) const PLACE_BYTES: usize = 9;

// What has a line in a file, of as many bytes as its kind asks for.
pub(crate) trait Line<const N: usize> {
    ghost text: { Self → List ℕ };

    // that each number fits its field
    ghost Fits: { Self → Type 0 };

    fn line(&self) -> [u8; N]
        requires { Fits self.now }
        ensures { result ≡ text self.now };
}

impl Line<CORES_BYTES> for Cores {
    ghost text = { λ c. cores_line c.0 };

    ghost Fits = { λ c. c.0 < 256 };

    fn line(&self) -> [u8; CORES_BYTES] {
        let [k1, k0] = byte_text(u8::from(Kind::Cores));
        let [m1, m0] = byte_text(self.0 as u8);
        [k1, k0, m1, m0, b'\n']
    }
}

// A row's line is that of its task.
impl Line<TASK_BYTES> for Row {
    ghost text = { λ r. task_line r.task };

    ghost Fits = { λ r. TaskWithinLimits r.task };

    fn line(&self) -> [u8; TASK_BYTES] {
        let [k1, k0] = byte_text(u8::from(Kind::Task));
        let [c3, c2, c1, c0] = word_text(self.task.cost as u16);
        let [d3, d2, d1, d0] = word_text(self.task.deadline as u16);
        let [t3, t2, t1, t0] = word_text(self.task.period as u16);
        [
            k1, k0, c3, c2, c1, c0, d3, d2, d1, d0, t3, t2, t1, t0, b'\n',
        ]
    }
}

impl Line<PLACE_BYTES> for Place {
    ghost text = { place_line };

    ghost Fits = { λ p. (p.task < 256) × (p.length < 65536) };

    fn line(&self) -> [u8; PLACE_BYTES] {
        let [k1, k0] = byte_text(u8::from(Kind::Place));
        let [n1, n0] = byte_text(self.task as u8);
        let [l3, l2, l1, l0] = word_text(self.length as u16);
        [k1, k0, n1, n0, l3, l2, l1, l0, b'\n']
    }
}

// Writes a line from `at` on, and answers the index past it.
pub(crate) fn put<const N: usize>(text: &mut [u8], at: usize, line: [u8; N]) -> usize
    requires { at + N ≤ length text.old }
    ensures at { result ≡ at + N }
    ensures text { text.new ≡ put line.entry at text.old }
{
    text[at..at + N].copy_from_slice(&line);
    at + N
}

// Writes a line for each item.
pub(crate) fn put_all<L: Line<N>, const N: usize>(
    text: &mut [u8],
    start: usize,
    items: &[L],
) -> usize
    requires room { start + N * length items.now ≤ length text.old }
    requires fit { (k : ℕ) (d : L) → k < length items.now → L.Fits (slice_index_or items.now k d) }
    ensures at { result ≡ start + N * length items.now }
    ensures text { text.new ≡ put (flat_map L.text items.now) start text.old }
{
    let mut at = start;
    for item in items {
        at = put(text, at, item.line());
    }
    at
}

// The digits of a two-byte number, the most significant byte first.
pub(crate) fn word_text(w: u16) -> [u8; 4]
    ensures { result ≡ word_text w }
{
    let [high, low] = w.to_be_bytes();
    let [h1, h0] = byte_text(high);
    let [l1, l0] = byte_text(low);
    [h1, h0, l1, l0]
}

// A byte's two digits.
pub(crate) fn byte_text(b: u8) -> [u8; 2]
    ensures { result ≡ byte_text b }
{
    [digit(b / 16), digit(b % 16)]
}

// The digit of a value below 16.
fn digit(n: u8) -> u8
    requires { n < 16 }
    ensures { result ≡ digit_text n }
{
    if n < 10 { b'0' + n } else { b'A' + (n - 10) }
}
