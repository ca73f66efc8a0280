ghost use Rattle.std.specs.Prelude.{◌≡◌};
ghost use Rattle.table_file.specs.Notices.{notice_line, of_fault, WritesBytes};

use crate::fault::Fault;
use crate::kind::Kind;
use crate::text::{Line, byte_text, put, word_text};
use planner::refusal::Refusal;

const NOTICE_BYTES: usize = 15;

// A refusal as a frame, in the place of a file: its number, layer, line and column. Number and layer are the bytes
// that are written, since any byte can be: an enum would ask more of who writes a notice.
#[derive(Clone, Copy, PartialEq, Eq, Debug)]
pub struct Notice {
    pub number: u8,
    pub layer: u8,
    pub line: u16,
    pub column: u16,
}

// The notice of a file that was refused.
impl From<Fault> for Notice {
    ghost from_gives = { λ fault notice. notice ≡ of_fault fault };

    fn from(fault: Fault) -> Notice {
        Notice {
            number: u8::from(fault.number),
            layer: fault.layer,
            line: fault.line,
            column: fault.column,
        }
    }
}

impl Line<NOTICE_BYTES> for Notice {
    ghost text = { notice_line };

    ghost Fits = { λ _. Unit {0} };

    fn line(&self) -> [u8; NOTICE_BYTES] {
        let [k1, k0] = byte_text(u8::from(Kind::Notice));
        let [n1, n0] = byte_text(self.number);
        let [y1, y0] = byte_text(self.layer);
        let [l3, l2, l1, l0] = word_text(self.line);
        let [c3, c2, c1, c0] = word_text(self.column);
        [
            k1, k0, n1, n0, y1, y0, l3, l2, l1, l0, c3, c2, c1, c0, b'\n',
        ]
    }
}

// Writes the frame of a notice over the front of a text, and answers its length.
pub fn write_notice(notice: Notice, text: &mut [u8]) -> Result<usize, Refusal>
    ensures { WritesBytes (notice_line notice) result text.old text.new }
{
    if text.len() < NOTICE_BYTES {
        return Err(Refusal::TooShort);
    }
    Ok(put(text, 0, notice.line()))
}
