ghost use Rattle.std.specs.Prelude.{◌≡◌, ◌+◌, ◌*◌, ◌<◌, ◌≤◌, length, position, IfOk, MatchResult};
ghost use Rattle.table_file.specs.Lines.{wrong, line_length, head_line, after_line, check_line, seen_line};

use crate::digits::is_hex;
use crate::fault::{Fault, Number};
use crate::stretch::Stretch;

// What is left of a file, and the number of its first line. Each line before the rest had three bytes at least; to
// count two is enough for the line's number to fit its type.
#[derive(Drop)]
pub(crate) struct Lines<'a> {
    pub(crate) rest: &'a [u8],
    pub(crate) line: u16,
    ghost counted: { 1 ≤ line },
    ghost short: { 2 * line + length rest.now ≤ 65537 },
}

impl<'a> Lines<'a> {
    // Takes the next line off the rest.
    pub(crate) fn take(&mut self) -> Result<Stretch<'a>, Fault>
        ensures answer { seen_line result ≡ check_line (head_line self.old.rest.now) self.old.line }
        ensures after { MatchResult result (λ s. (s.line ≡ self.old.line) × (self.new.line ≡ self.old.line + 1) × (self.new.rest.now ≡ after_line self.old.rest.now)) (λ _. self.new ≡ self.old) }
        ensures shorter { IfOk result (λ _. length self.new.rest.now + 3 ≤ length self.old.rest.now) }
    {
        let rest = self.rest;
        let line = self.line;
        let n = line_len(rest);
        let digits = &rest[0..n];
        if let Some(wrong) = wrong_at(digits) {
            return Err(Fault::at(Number::Digit, line, column_of(wrong)));
        }
        if n >= rest.len() || n == 0 || n % 2 != 0 {
            return Err(Fault::of_line(Number::Line, line));
        }
        self.rest = &rest[n + 1..];
        self.line = line + 1;
        Ok(Stretch { digits, line })
    }
}

// The column of the byte with this index.
fn column_of(index: usize) -> u16
    requires { index < 65535 }
    ensures { result ≡ index + 1 }
{
    (index + 1) as u16
}

// The index of the first line feed, or the length.
fn line_len(bytes: &[u8]) -> usize
    ensures value { result ≡ line_length bytes.now }
    ensures bound { result ≤ length bytes.now }
{
    bytes
        .iter()
        .position(|b| *b == b'\n')
        .unwrap_or(bytes.len())
}

// The index of the first byte that is no digit.
fn wrong_at(bytes: &[u8]) -> Option<usize>
    ensures { result ≡ position wrong bytes.now }
{
    bytes.iter().position(|b| !is_hex(*b))
}
