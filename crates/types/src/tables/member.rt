// What a member and a structure are (document 01, "Atomic types" and "Layout"), as values.
use crate::atomics::atomic::Atomic;

// A member's type: an atomic, or the number of an earlier structure.
#[derive(Clone, Copy, Debug, PartialEq, Eq)]
pub enum Ty {
    Atomic(Atomic),
    Struct(usize),
}

// Where a name stands: `long` bytes from `at` on.
#[derive(Clone, Copy, Debug, PartialEq, Eq)]
pub struct Span {
    pub at: u32,
    pub long: u32,
}

// A member of a structure, but for its name. A count of 0 is one element.
#[derive(Clone, Copy, Debug, PartialEq, Eq)]
pub struct Member {
    pub ty: Ty,
    pub count: u32,
    pub offset: u32,
    pub bit: Option<u8>,
    pub hidden: bool,
    pub local: bool,
    pub access: u8,
}

#[derive(Clone, Copy, Debug, PartialEq, Eq)]
pub enum StructKind {
    Udt,
    Predefined,
    Str,
    Aoi,
}

// A structure: its name, id, handle and size, and which rows of the members are its own.
#[derive(Clone, Copy, Debug, PartialEq, Eq)]
pub struct StructDef {
    pub name: Span,
    pub id: u16,
    pub handle: u16,
    pub size: u32,
    pub kind: StructKind,
    pub first: u32,
    pub count: u32,
}
