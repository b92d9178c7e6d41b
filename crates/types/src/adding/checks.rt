// What a declared type's members must meet before they are laid out (document 01, "Refusal numbers": per
// member 2, 8, 9). A name is compared with those before only where its mark was seen.
ghost use Rattle.std.specs.Prelude.{◌≡◌, ◌+◌, []};
ghost use Rattle.types.specs.adding.Checks.{entries_from, among, checked, member_number};
ghost use Rattle.types.specs.inside.adding.Checks.{member_name, names_before, EntriesInside, Marked, Marks, Looked};
ghost use Rattle.types.specs.inside.adding.Checks.{CheckedOne};
ghost use Rattle.types.specs.refusals.Said.{why_of};

use crate::book::contents::entry_at;
use crate::book::names::{good_name, lower, same_name};
use crate::refusals::refusal::Refusal;

// What is wrong with a member: name outside the rule, name twice, local outside an AOI.
#[derive(Clone, Copy, Debug, PartialEq, Eq)]
pub enum MemberFault {
    NameWrong,
    Twice,
    LocalOutside,
}

impl MemberFault {
    // The refusal of the type with this number in the book.
    pub fn refusal(self, number: u32) -> Refusal
        ensures { why_of result ≡ (member_number self, number) }
    {
        match self {
            MemberFault::NameWrong => Refusal::NameOutsideRule(number),
            MemberFault::Twice => Refusal::MemberTwice(number),
            MemberFault::LocalOutside => Refusal::LocalOutsideAoi(number),
        }
    }
}

// Which marks were seen.
type Seen = [u8; 16384];

// A name's mark.
fn mark(name: &[u8]) -> usize
    ensures { Marked name.now result }
{
    let mut h: u32 = 0;
    for &b in name {
        h = (h * 327 + u32::from(lower(b))) % 16384;
    }
    h as usize
}

// A name is among those of the first j members.
fn among_first(book: &[u8], at: usize, j: usize, name: &[u8]) -> bool
    requires { EntriesInside book.now at j }
    ensures { result ≡ among name.now (names_before (member_name book.now at) j) }
{
    for k in (0..j).rev() {
        let span = entry_at(book, at + 16 * k).name;
        let start = span.at as usize;
        let end = start + span.long as usize;
        if same_name(&book[start..end], name) {
            return true;
        }
    }
    false
}

// The j-th member's name is among those before. Names that are the same have the same mark, so one whose
// mark was not seen is new.
fn look(book: &[u8], at: usize, j: usize, name: &[u8], seen: &mut Seen) -> bool
    requires { EntriesInside book.now at j × ((name.now ≡ member_name book.now at j)
        × Marks seen.old (member_name book.now at) j) }
    ensures { Looked book.now at j seen.new result }
{
    let m = mark(name);
    if seen[m] == 0 {
        seen[m] = 1;
        return false;
    }
    among_first(book, at, j, name)
}

// The j-th member.
fn check_one(
    book: &[u8],
    at: usize,
    j: usize,
    aoi: bool,
    seen: &mut Seen,
) -> Result<(), MemberFault>
    requires { EntriesInside book.now at (j + 1) × Marks seen.old (member_name book.now at) j }
    ensures { CheckedOne book.now aoi at j seen.new result }
{
    let e = entry_at(book, at + 16 * j);
    let start = e.name.at as usize;
    let name = &book[start..start + e.name.long as usize];
    if !good_name(name) {
        return Err(MemberFault::NameWrong);
    }
    if look(book, at, j, name, seen) {
        return Err(MemberFault::Twice);
    }
    if e.local == 1 && !aoi {
        return Err(MemberFault::LocalOutside);
    }
    Ok(())
}

// The n members from a place on.
pub fn check_members(book: &[u8], at: usize, n: usize, aoi: bool) -> Result<(), MemberFault>
    requires { EntriesInside book.now at n }
    ensures { result ≡ checked book.now aoi [] (entries_from book.now at 0 n) }
{
    let mut seen = [0u8; 16384];
    for j in 0..n {
        check_one(book, at, j, aoi, &mut seen)?;
    }
    Ok(())
}
