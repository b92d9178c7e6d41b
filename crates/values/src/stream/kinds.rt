// The kinds of entries (document 01, "Value stream"), by their numbers.
pub const NULL: u8 = 0;

pub const BOOL: u8 = 1;

// Numbers: whole ones, and the bits of a REAL or an LREAL.
pub const SIGNED: u8 = 2;

pub const UNSIGNED: u8 = 3;

pub const REAL: u8 = 4;

pub const LREAL: u8 = 5;

pub const TEXT: u8 = 6;

pub const MEMBER: u8 = 7;

// The brackets of a structure, and those of an array.
pub const OPEN: u8 = 8;

pub const CLOSE: u8 = 9;

pub const ARRAY_OPEN: u8 = 10;

pub const ARRAY_CLOSE: u8 = 11;

// No kind: what stands past the last entry.
pub const NO_KIND: u8 = 12;
