// The declaration book (document 01, "Declaration book"): its entries as values, and the check of the whole
// that refusal 1 stands for.
ghost use Rattle.std.specs.Prelude.{◌≡◌, ◌+◌, ◌*◌, ◌<◌, ◌≤◌, ◌||◌, length};
ghost use Rattle.types.specs.book.Contents.{is_aoi, is_string, has_id, type_entry, member_entry_at, member_entry};
ghost use Rattle.types.specs.book.Contents.{in_bodies, type_ok, member_ok, every, list_from, book_ok};
ghost use Rattle.types.specs.inside.book.Contents.{CountsSum};

use crate::tables::member::Span;
use words::Word;

// A type's entry. Its fields stand as the book has them.
#[derive(Clone, Copy, Debug, PartialEq, Eq)]
pub struct TypeEntry {
    pub name: Span,
    pub flags: u8,
    pub id: u16,
    pub string: u32,
    pub count: u16,
    pub zero: u16,
}

// A member's entry, with where its name and its type's name stand.
#[derive(Clone, Copy, Debug, PartialEq, Eq)]
pub struct MemberEntry {
    pub name: Span,
    pub ty: Span,
    pub local: u8,
    pub access: u8,
    pub dim: u32,
}

// A count of entries.
pub fn count_of(x: u16) -> usize
    ensures { (result ≡ x) × (result < 65536) }
{
    x as usize
}

// The i-th type entry.
pub fn type_entry(book: &[u8], i: usize) -> TypeEntry
    requires { 20 + 16 * i ≤ length book.now }
    ensures { result ≡ type_entry book.now i }
{
    let at = 4 + 16 * i;
    TypeEntry {
        name: Span {
            at: u32::load(book, at),
            long: u32::from(u8::load(book, at + 4)),
        },
        flags: u8::load(book, at + 5),
        id: u16::load(book, at + 6),
        string: u32::load(book, at + 8),
        count: u16::load(book, at + 12),
        zero: u16::load(book, at + 14),
    }
}

// The member entry at a place.
pub fn entry_at(book: &[u8], at: usize) -> MemberEntry
    requires { at + 16 ≤ length book.now }
    ensures { result ≡ member_entry_at book.now at }
{
    MemberEntry {
        name: Span {
            at: u32::load(book, at),
            long: u32::from(u8::load(book, at + 4)),
        },
        ty: Span {
            at: u32::load(book, at + 12),
            long: u32::from(u8::load(book, at + 5)),
        },
        local: u8::load(book, at + 6),
        access: u8::load(book, at + 7),
        dim: u32::load(book, at + 8),
    }
}

// The i-th member entry of a book with t types.
pub fn member_entry(book: &[u8], t: usize, i: usize) -> MemberEntry
    requires { 20 + 16 * t + 16 * i ≤ length book.now }
    ensures { result ≡ member_entry book.now t i }
{
    entry_at(book, 4 + 16 * t + 16 * i)
}

// A name lies wholly in the bodies; one of length 0 may lie at their end.
#[tactic(auto, unfolding(crate::specs::book::Contents::in_bodies))]
fn in_bodies(start: usize, end: usize, s: Span) -> bool
    ensures { result ≡ in_bodies start end s }
{
    let at = s.at as usize;
    let long = s.long as usize;
    start <= at && at + long <= end
}

// Flags: 1 AOI, 2 string, 4 id given.
pub fn is_aoi(e: TypeEntry) -> bool
    ensures { result ≡ is_aoi e }
{
    e.flags % 2 == 1
}

pub fn is_string(e: TypeEntry) -> bool
    ensures { result ≡ is_string e }
{
    e.flags / 2 % 2 == 1
}

pub fn has_id(e: TypeEntry) -> bool
    ensures { result ≡ has_id e }
{
    4 <= e.flags
}

// Other flag bits are 0, and an unset flag needs 0 in its field.
#[tactic(auto, unfolding(crate::specs::book::Contents::type_ok))]
fn type_ok(start: usize, end: usize, e: TypeEntry) -> bool
    ensures { result ≡ type_ok start end e }
{
    e.flags <= 7
        && e.zero == 0
        && (has_id(e) || e.id == 0)
        && (is_string(e) || e.string == 0)
        && in_bodies(start, end, e.name)
}

#[tactic(auto, unfolding(crate::specs::book::Contents::member_ok))]
fn member_ok(start: usize, end: usize, e: MemberEntry) -> bool
    ensures { result ≡ member_ok start end e }
{
    e.local <= 1 && in_bodies(start, end, e.name) && in_bodies(start, end, e.ty)
}

// Each of the first n type entries is well formed, where the bodies begin at `start`.
fn types_ok(book: &[u8], n: usize, start: usize) -> bool
    requires { (4 + 16 * n ≤ length book.now) × (n < 65536) }
    ensures { result ≡ every (type_ok start (length book.now))
        (list_from (type_entry book.now) 0 n) }
{
    for i in 0..n {
        if !type_ok(start, book.len(), type_entry(book, i)) {
            return false;
        }
    }
    true
}

// How many members the first n type entries count.
fn sum_counts(book: &[u8], n: usize) -> usize
    requires { (4 + 16 * n ≤ length book.now) × (n < 65536) }
    ensures { CountsSum n (list_from (type_entry book.now) 0 n) result }
{
    let mut sum: usize = 0;
    for i in 0..n {
        sum += count_of(type_entry(book, i).count);
    }
    sum
}

// Each of the n member entries after t types is well formed.
fn members_ok(book: &[u8], t: usize, n: usize, start: usize) -> bool
    requires { (4 + 16 * t + 16 * n ≤ length book.now) × ((t < 65536) × (n < 65536)) }
    ensures { result ≡ every (member_ok start (length book.now))
        (list_from (member_entry book.now t) 0 n) }
{
    for i in 0..n {
        if !member_ok(start, book.len(), member_entry(book, t, i)) {
            return false;
        }
    }
    true
}

// The book is well formed; where it is not, building refuses with 1.
#[tactic(auto, unfolding(crate::specs::book::Contents::book_ok))]
pub fn book_ok(book: &[u8]) -> bool
    ensures { result ≡ book_ok book.now }
{
    if book.len() < 4 {
        return false;
    }
    let t = count_of(u16::load(book, 0));
    let m = count_of(u16::load(book, 2));
    let start = 4 + 16 * t + 16 * m;
    start <= book.len()
        && types_ok(book, t, start)
        && sum_counts(book, t) == m
        && members_ok(book, t, m, start)
}
