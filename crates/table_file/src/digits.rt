ghost use Rattle.std.specs.Prelude.{◌≡◌, ◌+◌, ◌*◌, ◌<◌, true};
ghost use Rattle.table_file.specs.Digits.{is_digit, value};

// Whether a byte of text is 0-9 or A-F.
pub(crate) fn is_hex(b: u8) -> bool
    ensures { result ≡ is_digit b }
{
    matches!(b, b'0'..=b'9' | b'A'..=b'F')
}

fn digit_value(b: u8) -> u8
    requires { is_digit b ≡ true }
    ensures is { result ≡ value b }
    ensures below { result < 16 }
{
    if b <= b'9' { b - b'0' } else { b - b'A' + 10 }
}

// The byte that two digits make.
pub(crate) fn byte_of(high: u8, low: u8) -> u8
    requires high { is_digit high ≡ true }
    requires low { is_digit low ≡ true }
    ensures { result ≡ 16 * value high + value low }
{
    16 * digit_value(high) + digit_value(low)
}
