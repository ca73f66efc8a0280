ghost use Rattle.std.specs.Prelude.{◌≡◌};
ghost use Rattle.table_file.specs.Kinds.{kind_byte, Decodes};

// What a frame is, as its first byte says.
#[derive(Clone, Copy, PartialEq, Eq, Debug)]
pub(crate) enum Kind {
    Cores = 1,
    Task = 2,
    Place = 3,
    // stands in the place of a file
    Notice = 0x7F,
}

// A byte that stands for no kind.
#[derive(Clone, Copy, PartialEq, Eq, Debug)]
pub(crate) struct UnknownKind(pub(crate) u8);

impl From<Kind> for u8 {
    ghost from_gives = { λ kind b. b ≡ kind_byte kind };

    fn from(kind: Kind) -> u8 {
        kind as u8
    }
}

impl TryFrom<u8> for Kind {
    type Error = UnknownKind;

    ghost try_from_gives = { Decodes };

    fn try_from(byte: u8) -> Result<Kind, UnknownKind> {
        match byte {
            1 => Ok(Kind::Cores),
            2 => Ok(Kind::Task),
            3 => Ok(Kind::Place),
            0x7F => Ok(Kind::Notice),
            _ => Err(UnknownKind(byte)),
        }
    }
}
