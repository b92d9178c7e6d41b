// Decimal digits (document 01, "Layout", for the names of hidden hosts, and the end of "Reference cases", for the lines
// of a listing).
ghost use Rattle.std.specs.Prelude.{◌≡◌, ◌+◌, ◌%◌};
ghost use Rattle.types.specs.inside.layout.Decimals.{Spelt, TwoDigits};

// No number of 64 bits has more digits.
pub const DIGITS: usize = 20;

// A number's digits: these bytes from `from` on.
#[derive(Clone, Copy, Debug, PartialEq, Eq)]
pub struct Decimal {
    pub bytes: [u8; DIGITS],
    pub from: usize,
}

// The byte of a number's last digit.
fn last_digit(x: u64) -> u8
    ensures { result ≡ 48 + x % 10 }
{
    b'0' + (x % 10) as u8
}

// A number's digits, stored from the last one on.
pub fn decimal_of(x: u64) -> Decimal
    ensures { Spelt x result }
{
    let mut bytes = [0; DIGITS];
    let mut from = DIGITS - 1;
    let mut y = x;
    while y >= 10 {
        bytes[from] = last_digit(y);
        from -= 1;
        y /= 10;
    }
    bytes[from] = last_digit(y);
    Decimal { bytes, from }
}

// A number's digits, two or more.
pub fn two_digits(x: u64) -> Decimal
    ensures { TwoDigits x result }
{
    if x < 10 {
        let mut bytes = [b'0'; DIGITS];
        bytes[DIGITS - 1] = last_digit(x);
        Decimal {
            bytes,
            from: DIGITS - 2,
        }
    } else {
        decimal_of(x)
    }
}
