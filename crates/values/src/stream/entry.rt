// An entry (document 01, "Value stream"): its kinds 0 to 11 with their payloads by value, stored as twelve bytes and
// loaded again. Bytes that are no entry are malformed.
ghost use Rattle.std.specs.Prelude.{◌≡◌, ◌+◌, ◌≤◌, length, leb};
ghost use Rattle.std.proofs.lemmas.List.Edits.{sets};
ghost use Rattle.values.specs.inside.stream.Entry.{bare_in, entry_in, loaded_of, low_in, truth_in};
ghost use Rattle.values.specs.stream.Entry.{EntryStored, entry_at, entry_kind, entry_payload, said_by};
ghost use Rattle.values.specs.stream.Stream.{entry_bytes};

use crate::stream::kinds;
use words::Word;

// A text has its place in the bodies and its length.
#[derive(Clone, Copy, Debug, PartialEq, Eq)]
pub enum Entry {
    Null,
    Bool(bool),
    Signed(u64),
    Unsigned(u64),
    Real(u32),
    LReal(u64),
    Text(u32, u32),
    Member(u32),
    Open,
    Close,
    ArrayOpen,
    ArrayClose,
}

impl Entry {
    // The number of its kind.
    pub fn kind(self) -> u8
        ensures { result ≡ entry_kind self }
    {
        match self {
            Entry::Null => kinds::NULL,
            Entry::Bool(_) => kinds::BOOL,
            Entry::Signed(_) => kinds::SIGNED,
            Entry::Unsigned(_) => kinds::UNSIGNED,
            Entry::Real(_) => kinds::REAL,
            Entry::LReal(_) => kinds::LREAL,
            Entry::Text(_, _) => kinds::TEXT,
            Entry::Member(_) => kinds::MEMBER,
            Entry::Open => kinds::OPEN,
            Entry::Close => kinds::CLOSE,
            Entry::ArrayOpen => kinds::ARRAY_OPEN,
            Entry::ArrayClose => kinds::ARRAY_CLOSE,
        }
    }

    // Its payload as a number; unused bytes are zero.
    pub fn payload(self) -> u64
        ensures { result ≡ entry_payload self }
    {
        match self {
            Entry::Bool(b) => u64::from(b),
            Entry::Signed(x) | Entry::Unsigned(x) | Entry::LReal(x) => x,
            Entry::Real(x) | Entry::Member(x) => u64::from(x),
            Entry::Text(place, long) => u64::from(place) + 0x1_0000_0000 * u64::from(long),
            Entry::Null | Entry::Open | Entry::Close | Entry::ArrayOpen | Entry::ArrayClose => 0,
        }
    }
}

// Whether twelve bytes from a place on lie inside.
fn is_inside(long: usize, at: usize) -> bool
    ensures { result ≡ leb (at + 12) long }
{
    12 <= long && at <= long - 12
}

// Stores an entry at a place, the bytes around it stay; or says that it has no room there, and stores nothing.
pub fn store_entry(out: &mut [u8], at: usize, e: Entry) -> bool
    ensures { EntryStored out.old at e result out.new }
{
    if !is_inside(out.len(), at) {
        return false;
    }
    put_entry(out, at, e.kind(), e.payload());
    true
}

// An entry without a payload.
#[tactic(auto, unfolding(crate::specs::inside::stream::Entry::bare_in))]
fn bare_in(e: Entry, x: u64) -> Option<Entry>
    ensures { result ≡ bare_in e x }
{
    (x == 0).then_some(e)
}

#[tactic(auto, unfolding(crate::specs::inside::stream::Entry::truth_in))]
fn truth_in(x: u64) -> Option<Entry>
    ensures { result ≡ truth_in x }
{
    match x {
        0 => Some(Entry::Bool(false)),
        1 => Some(Entry::Bool(true)),
        _ => None,
    }
}

// What a kind and a payload say.
fn loaded_of(kind: u8, x: u64) -> Option<Entry>
    ensures { result ≡ loaded_of kind x }
{
    match kind {
        kinds::NULL => bare_in(Entry::Null, x),
        kinds::BOOL => truth_in(x),
        kinds::SIGNED => Some(Entry::Signed(x)),
        kinds::UNSIGNED => Some(Entry::Unsigned(x)),
        kinds::REAL => u32::try_from(x).ok().map(Entry::Real),
        kinds::LREAL => Some(Entry::LReal(x)),
        kinds::TEXT => Some(Entry::Text((x % 0x1_0000_0000) as u32, (x / 0x1_0000_0000) as u32)),
        kinds::MEMBER => u32::try_from(x).ok().map(Entry::Member),
        kinds::OPEN => bare_in(Entry::Open, x),
        kinds::CLOSE => bare_in(Entry::Close, x),
        kinds::ARRAY_OPEN => bare_in(Entry::ArrayOpen, x),
        kinds::ARRAY_CLOSE => bare_in(Entry::ArrayClose, x),
        _ => None,
    }
}

// The entry in the twelve bytes at a place inside.
fn load_entry(s: &[u8], at: usize) -> Option<Entry>
    requires { at + 12 ≤ length s.now }
    ensures { result ≡ entry_in s.now at }
{
    if s[at + 1] != 0 || s[at + 2] != 0 || s[at + 3] != 0 {
        return None;
    }
    loaded_of(s[at], u64::load(s, at + 4))
}

// The entry in the twelve bytes at a place; bytes that are not there are malformed.
pub fn entry_at(s: &[u8], at: usize) -> Option<Entry>
    ensures { said_by result ≡ entry_at s.now at }
{
    if !is_inside(s.len(), at) {
        return None;
    }
    load_entry(s, at)
}

// Stores an entry at a place; the bytes around it stay.
pub fn put_entry(out: &mut [u8], at: usize, kind: u8, payload: u64)
    requires { at + 12 ≤ length out.old }
    ensures { out.new ≡ sets out.old at (entry_bytes kind payload) }
{
    u32::from(kind).store(out, at);
    payload.store(out, at + 4);
}
