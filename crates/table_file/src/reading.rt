ghost use Rattle.std.specs.Prelude.{◌≡◌, Ok, Err, MatchResult};
ghost use Rattle.table_file.specs.Progress.{carried, view};
ghost use Rattle.table_file.specs.Promises.{Reads};
ghost use Rattle.table_file.specs.Reading.{read_file};

use crate::fault::{Fault, Number};
use crate::frames::frame_of;
use crate::lines::Lines;
use crate::reader::Reader;
use crate::sheet::Sheet;

const MOST_BYTES: usize = 65_535;

// Reads all frames of a file, or refuses the first line that breaks a rule.
fn read_frames(bytes: &[u8]) -> Result<Reader, Fault>
    ensures { MatchResult result
        (λ reader. read_file bytes.now ≡ Ok (carried (view reader)))
        (λ f. read_file bytes.now ≡ Err f) }
{
    if bytes.len() > MOST_BYTES {
        return Err(Fault::of_line(Number::TooLong, 1));
    }
    let mut reader = Reader::new();
    let mut lines = Lines {
        rest: bytes,
        line: 1,
    };
    // not an iterator of lines: after the last one its number is still wanted
    while !lines.rest.is_empty() {
        let line = lines.take()?;
        let frame = frame_of(line)?;
        reader.accept(frame)?;
    }
    reader.finish(lines.line)?;
    Ok(reader)
}

// Reads a file into a sheet, or refuses it and leaves the sheet as it was.
pub fn read_file(bytes: &[u8], sheet: &mut Sheet) -> Result<(), Fault>
    ensures { Reads bytes.now result sheet.old sheet.new }
{
    let reader = read_frames(bytes)?;
    sheet.fill(reader);
    Ok(())
}
