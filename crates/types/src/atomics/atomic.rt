// The fifteen atomic types (document 01, "Atomic types"). Code, size and name of each stand in one
// table; BYTE, WORD, DWORD and LWORD are bit strings.
ghost use Rattle.std.specs.Prelude.{◌≡◌};
ghost use Rattle.types.specs.atomics.Atomic.{atomics, code_at, row_of, code_of, size_of, bit_string, has_bits};
ghost use Rattle.types.specs.atomics.Atomic.{code_named, code_given, said_by, Numbered};
ghost use Rattle.types.specs.inside.atomics.Atomic.{table_rows};

use crate::book::names::same_name;

#[derive(Clone, Copy, Debug, PartialEq, Eq)]
pub enum Atomic {
    Bool,
    SInt,
    Int,
    DInt,
    LInt,
    USInt,
    UInt,
    UDInt,
    ULInt,
    Real,
    LReal,
    Byte,
    Word,
    DWord,
    LWord,
}

// A row of the table: code, size, the name's length, and the name with zeros after it.
#[derive(Clone, Copy, Debug, PartialEq, Eq)]
pub struct AtomicRow(pub u8, pub u8, pub u8, pub [u8; 5]);

const ATOMICS: [AtomicRow; 15] = [
    AtomicRow(0xC1, 1, 4, [b'B', b'O', b'O', b'L', 0]),
    AtomicRow(0xC2, 1, 4, [b'S', b'I', b'N', b'T', 0]),
    AtomicRow(0xC3, 2, 3, [b'I', b'N', b'T', 0, 0]),
    AtomicRow(0xC4, 4, 4, [b'D', b'I', b'N', b'T', 0]),
    AtomicRow(0xC5, 8, 4, [b'L', b'I', b'N', b'T', 0]),
    AtomicRow(0xC6, 1, 5, [b'U', b'S', b'I', b'N', b'T']),
    AtomicRow(0xC7, 2, 4, [b'U', b'I', b'N', b'T', 0]),
    AtomicRow(0xC8, 4, 5, [b'U', b'D', b'I', b'N', b'T']),
    AtomicRow(0xC9, 8, 5, [b'U', b'L', b'I', b'N', b'T']),
    AtomicRow(0xCA, 4, 4, [b'R', b'E', b'A', b'L', 0]),
    AtomicRow(0xCB, 8, 5, [b'L', b'R', b'E', b'A', b'L']),
    AtomicRow(0xD1, 1, 4, [b'B', b'Y', b'T', b'E', 0]),
    AtomicRow(0xD2, 2, 4, [b'W', b'O', b'R', b'D', 0]),
    AtomicRow(0xD3, 4, 5, [b'D', b'W', b'O', b'R', b'D']),
    AtomicRow(0xD4, 8, 5, [b'L', b'W', b'O', b'R', b'D']),
];

fn table() -> [AtomicRow; 15]
    ensures { result ≡ table_rows atomics }
{
    ATOMICS
}

impl Atomic {
    // Its place among the fifteen.
    pub fn num(self) -> usize
        ensures { Numbered self result }
    {
        self as usize
    }

    // The atomic at a place; BOOL past the last.
    #[tactic(auto, unfolding(crate::specs::atomics::Atomic::code_at, crate::specs::atomics::Atomic::code_of))]
    pub fn at(i: usize) -> Atomic
        ensures { code_of result ≡ code_at i }
    {
        match i {
            1 => Atomic::SInt,
            2 => Atomic::Int,
            3 => Atomic::DInt,
            4 => Atomic::LInt,
            5 => Atomic::USInt,
            6 => Atomic::UInt,
            7 => Atomic::UDInt,
            8 => Atomic::ULInt,
            9 => Atomic::Real,
            10 => Atomic::LReal,
            11 => Atomic::Byte,
            12 => Atomic::Word,
            13 => Atomic::DWord,
            14 => Atomic::LWord,
            _ => Atomic::Bool,
        }
    }

    // Its row of the table.
    pub fn row(self) -> AtomicRow
        ensures { result ≡ row_of self }
    {
        table()[self.num()]
    }

    pub fn code(self) -> u8
        ensures { result ≡ code_of self }
    {
        self.row().0
    }

    // Its bytes as its row of the table has them: layouts and tag shapes ask here.
    pub fn row_size(self) -> u8
        ensures { result ≡ size_of self }
    {
        self.row().1
    }

    // Its bytes, by a match: the row's size costs a look-up in the table, and readers of values ask at every leaf.
    #[tactic(auto, unfolding(crate::specs::atomics::Atomic::size_of))]
    pub fn size(self) -> u8
        ensures { result ≡ size_of self }
    {
        match self {
            Atomic::Bool | Atomic::SInt | Atomic::USInt | Atomic::Byte => 1,
            Atomic::Int | Atomic::UInt | Atomic::Word => 2,
            Atomic::DInt | Atomic::UDInt | Atomic::Real | Atomic::DWord => 4,
            Atomic::LInt | Atomic::ULInt | Atomic::LReal | Atomic::LWord => 8,
        }
    }

    // The bit strings, whose value is one bool per bit.
    #[tactic(auto, unfolding(crate::specs::atomics::Atomic::bit_string))]
    pub fn is_bit_string(self) -> bool
        ensures { result ≡ bit_string self }
    {
        matches!(
            self,
            Atomic::Byte | Atomic::Word | Atomic::DWord | Atomic::LWord
        )
    }

    // Integers and bit strings.
    #[tactic(auto, unfolding(crate::specs::atomics::Atomic::has_bits))]
    pub fn has_bits(self) -> bool
        ensures { result ≡ has_bits self }
    {
        !matches!(self, Atomic::Bool | Atomic::Real | Atomic::LReal)
    }

    // The atomic of a name, without ASCII case.
    pub fn from_name(name: &[u8]) -> Option<Atomic>
        ensures { said_by result ≡ code_named name.now }
    {
        for (i, row) in table().iter().enumerate() {
            if same_name(&row.3[..row.2 as usize], name) {
                return Some(Atomic::at(i));
            }
        }
        None
    }

    // The atomic of a code.
    pub fn from_code(code: u16) -> Option<Atomic>
        ensures { said_by result ≡ code_given code }
    {
        for (i, row) in table().iter().enumerate() {
            if u16::from(row.0) == code {
                return Some(Atomic::at(i));
            }
        }
        None
    }
}
