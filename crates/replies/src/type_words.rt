// The words that questions and answers have for types: an atomic's code, or 0x8000 plus the number of a type in the
// tables.
use types::{Atomic, Ty};

// Where the words of structures begin.
const STRUCTS: u16 = 0x8000;

// A number that no table has: every call refuses it as no such type.
const NO_TYPE: usize = 0x8000;

// The type of a word; whether it is there, the calls see for themselves.
pub fn ty_of_word(word: u16) -> Ty {
    if STRUCTS <= word {
        return Ty::Struct(usize::from(word - STRUCTS));
    }
    match Atomic::from_code(word) {
        Some(a) => Ty::Atomic(a),
        None => Ty::Struct(NO_TYPE),
    }
}

// The word of a type. No table has a number that 15 bits do not hold.
pub fn word_of_ty(ty: Ty) -> u16 {
    match ty {
        Ty::Atomic(a) => u16::from(a.code()),
        Ty::Struct(n) if n < 0x8000 => STRUCTS + n as u16,
        Ty::Struct(_) => 0,
    }
}
