ghost use Rattle.std.specs.Prelude.{◌≤◌, length};
ghost use Rattle.table_file.specs.Digits.{AllDigits};

// The digits of a line, in the file itself, with the line's number. There are at least those of a kind.
#[derive(Clone, Copy)]
pub(crate) struct Stretch<'a> {
    pub(crate) digits: &'a [u8],
    pub(crate) line: u16,
    ghost hex: { AllDigits digits.now },
    ghost some: { 2 ≤ length digits.now },
}

// The digits of a frame's fields, two for a byte, in the file itself, with the frame's line.
#[derive(Clone, Copy)]
pub(crate) struct Fields<'a, const N: usize> {
    pub(crate) digits: &'a [u8; N],
    pub(crate) line: u16,
    ghost hex: { AllDigits digits.now },
}
