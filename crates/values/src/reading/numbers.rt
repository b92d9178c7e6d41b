// How an atomic's bytes become a payload (document 01, "Reading"): its size and kind, and for signed types the sign
// that fills the bytes above it.
ghost use Rattle.std.specs.Prelude.{◌≡◌, ◌+◌, ◌^◌, ◌<◌};
ghost use Rattle.words.specs.Bits.{digit};
ghost use Rattle.values.specs.inside.reading.Numbers.{form_of, extended};
ghost use Rattle.values.specs.reading.Leaf.{is_true};

use crate::stream::kinds;
use types::Atomic;

// The kind of a number's entry; from which number on it is negative, and what then stands above it.
#[derive(Clone, Copy, Debug, PartialEq, Eq)]
pub struct Form {
    pub kind: u8,
    pub half: u64,
    pub fill: u64,
}

// A number without a sign is kept as it is.
fn plain(kind: u8) -> Form
    ensures { result ≡ record { kind = kind; half = 0; fill = 0 } }
{
    Form {
        kind,
        half: 0,
        fill: 0,
    }
}

fn signed(half: u64, fill: u64) -> Form
    ensures { result ≡ record { kind = 2; half = half; fill = fill } }
{
    Form {
        kind: kinds::SIGNED,
        half,
        fill,
    }
}

pub fn form_of(a: Atomic) -> Form
    ensures { result ≡ form_of a }
{
    match a {
        Atomic::Bool => plain(kinds::BOOL),
        Atomic::SInt => signed(0x80, 0xFFFF_FFFF_FFFF_FF00),
        Atomic::Int => signed(0x8000, 0xFFFF_FFFF_FFFF_0000),
        Atomic::DInt => signed(0x8000_0000, 0xFFFF_FFFF_0000_0000),
        Atomic::LInt => plain(kinds::SIGNED),
        Atomic::USInt | Atomic::UInt | Atomic::UDInt | Atomic::ULInt => plain(kinds::UNSIGNED),
        Atomic::Byte | Atomic::Word | Atomic::DWord | Atomic::LWord => plain(kinds::UNSIGNED),
        Atomic::Real => plain(kinds::REAL),
        Atomic::LReal => plain(kinds::LREAL),
    }
}

// A number with its sign: from `half` on it is negative, and `fill` stands above it.
pub fn extend(f: Form, x: u64) -> u64
    requires { x + f.fill < 2 ^ 64 }
    ensures { result ≡ extended f x }
{
    if x < f.half {
        return x;
    }
    x + f.fill
}

// A byte is true when it is not 0.
pub fn truth(x: u8) -> u64
    ensures { result ≡ digit (is_true x) }
{
    u64::from(x != 0)
}

pub fn truth_of(b: bool) -> u64
    ensures { result ≡ digit b }
{
    u64::from(b)
}
