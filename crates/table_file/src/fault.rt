ghost use Rattle.std.specs.Prelude.{◌≡◌};
ghost use Rattle.table_file.specs.Numbers.{number_of, layer_number, layer_of, fault_at};

// Why a file was refused.
#[derive(Clone, Copy, PartialEq, Eq, Debug)]
pub enum Number {
    // the core count is 0 or above 16
    CoreCount = 1,
    // the table has 32 tasks
    TableFull = 2,
    // the limits on cost, deadline and period do not hold
    Limits = 3,
    // no task has this number
    NoSuchTask = 4,
    // the task has a place already
    NamedAgain = 5,
    // the length is 0 or above the cost
    Length = 6,
    // a byte is not 0-9 or A-F
    Digit = 12,
    // a line is empty, has an odd digit count or lacks its line feed
    Line = 13,
    // the kind is not 01, 02 or 03
    Kind = 14,
    // the frame has the wrong number of bytes
    Size = 15,
    // the frame is not due in this phase, or is missing at the end
    NotDue = 16,
    // the file has more than 65,535 bytes
    TooLong = 17,
}

// The number that users know a refusal by.
impl From<Number> for u8 {
    ghost from_gives = { λ number n. n ≡ number_of number };

    fn from(number: Number) -> u8 {
        number as u8
    }
}

// How far the reading of a file had come when it was refused; or that a search was refused.
#[derive(Clone, Copy, PartialEq, Eq, Debug)]
pub enum Layer {
    // lines of digits
    Lines = 1,
    // frames
    Frames = 2,
    // what of a table the frames say
    Table = 3,
    // the search for a plan
    Search = 4,
}

// The number that users know a layer by.
impl From<Layer> for u8 {
    ghost from_gives = { λ layer n. n ≡ layer_number layer };

    fn from(layer: Layer) -> u8 {
        layer as u8
    }
}

impl Number {
    // the layer whose rules have this number
    pub fn layer(self) -> Layer
        ensures { result ≡ layer_of self }
    {
        match self {
            Number::Digit | Number::Line | Number::TooLong => Layer::Lines,
            Number::Kind | Number::Size | Number::NotDue => Layer::Frames,
            _ => Layer::Table,
        }
    }
}

// A refusal with its place in the file; lines and columns count from 1. The layer is a byte, since a notice can be made of
// any: `Layer` would ask more of who makes a fault.
#[derive(Clone, Copy, PartialEq, Eq, Debug)]
pub struct Fault {
    pub number: Number,
    pub layer: u8,
    pub line: u16,
    pub column: u16,
}

impl Fault {
    // A fault of a certain byte.
    pub(crate) fn at(number: Number, line: u16, column: u16) -> Fault
        ensures { result ≡ fault_at number line column }
    {
        Fault {
            number,
            layer: u8::from(number.layer()),
            line,
            column,
        }
    }

    // A fault of a whole line.
    pub(crate) fn of_line(number: Number, line: u16) -> Fault
        ensures { result ≡ fault_at number line 1 }
    {
        Fault::at(number, line, 1)
    }
}
