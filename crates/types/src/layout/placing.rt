// Layout (document 01, "Layout"): where one declared member goes. A cursor holds how far the layout has
// come, with the open host of the BOOLs; placing a member answers what lies where, and the next cursor.
ghost use Rattle.std.specs.Prelude.{◌≡◌};
ghost use Rattle.types.specs.inside.layout.Placing.{Times, Aligned, Able};
ghost use Rattle.types.specs.layout.Placing.{member_end, said_by, access_ok, is_bool, align_up, opened as opened_of};
ghost use Rattle.types.specs.layout.Placing.{next_bit, place_bool, closed, place_other, placed, fault_number};
ghost use Rattle.types.specs.refusals.Said.{why_of};

use crate::atomics::atomic::Atomic;
use crate::refusals::refusal::Refusal;
use crate::tables::member::{Member, Span, Ty};

// The most bytes of a member's end.
pub const MOST_SIZE: u64 = 67108864;

// Where the next BOOL goes: no host is open; bit `1` of the host at byte `0` is the next; or, in an AOI,
// all BOOLs share the hosts at its start, and so many have come before.
#[derive(Clone, Copy, Debug, PartialEq, Eq)]
pub enum Host {
    Closed,
    Open(u32, u8),
    Shared(u32),
}

// A declared member whose type was found: the type's size and alignment, its count (a BOOL with a dim is
// DWORDs by now), and where its name stands in the book.
#[derive(Clone, Copy, Debug, PartialEq, Eq)]
pub struct Decl {
    pub name: Span,
    pub ty: Ty,
    pub size: u32,
    pub align: u32,
    pub count: u32,
    pub local: bool,
    pub access: u8,
}

// How far a layout has come: the current offset, the host, and the count of members so far.
#[derive(Clone, Copy, Debug, PartialEq, Eq)]
pub struct Cursor {
    pub offset: u32,
    pub host: Host,
    pub members: u32,
}

// What placing a member gives: a new hidden host and the member, or the member alone, and how far the
// layout has then come.
#[derive(Clone, Copy, Debug, PartialEq, Eq)]
pub enum Placed {
    Hosted(Member, Member, Cursor),
    One(Member, Cursor),
}

// Why a member cannot be placed.
#[derive(Clone, Copy, Debug, PartialEq, Eq)]
pub enum LayoutFault {
    AccessWrong,
    TooFar,
}

impl LayoutFault {
    // The refusal of the type with this number in the book.
    pub fn refusal(self, number: u32) -> Refusal
        ensures { why_of result ≡ (fault_number self, number) }
    {
        match self {
            LayoutFault::AccessWrong => Refusal::AccessWrong(number),
            LayoutFault::TooFar => Refusal::MemberTooFar(number),
        }
    }
}

// How many elements a count stands for: 0 is one.
pub fn elements(count: u32) -> u64
    ensures { Times count result }
{
    u64::from(count).max(1)
}

// The end of a member of `count` elements of `size` bytes each at `offset`, where it is not past 2^26.
pub fn member_end(offset: u32, size: u32, count: u32) -> Option<u32>
    ensures { said_by result ≡ member_end offset size count }
{
    let end = u64::from(offset) + u64::from(size) * elements(count);
    if end <= MOST_SIZE {
        Some(end as u32)
    } else {
        None
    }
}

// 0 read and write, 2 read only, 3 none.
#[tactic(auto, unfolding(crate::specs::layout::Placing::access_ok))]
fn access_ok(access: u8) -> bool
    ensures { result ≡ access_ok access }
{
    matches!(access, 0 | 2 | 3)
}

#[tactic(auto, unfolding(crate::specs::layout::Placing::is_bool))]
pub fn is_bool(ty: Ty) -> bool
    ensures { result ≡ is_bool ty }
{
    matches!(ty, Ty::Atomic(Atomic::Bool))
}

// The lowest multiple of `align` from x on.
pub fn align_up(x: u32, align: u32) -> u32
    requires { Aligned x align }
    ensures { result ≡ align_up x align }
{
    x.next_multiple_of(align)
}

// A hidden SINT host at the current offset, which grows by 1, and the BOOL at its bit 0.
fn opened(c: Cursor, d: Decl) -> Placed
    requires { Able c d }
    ensures { result ≡ opened_of c d }
{
    Placed::Hosted(
        Member {
            ty: Ty::Atomic(Atomic::SInt),
            count: 0,
            offset: c.offset,
            bit: None,
            hidden: true,
            local: false,
            access: 0,
        },
        Member {
            ty: Ty::Atomic(Atomic::Bool),
            count: 0,
            offset: c.offset,
            bit: Some(0),
            hidden: false,
            local: d.local,
            access: d.access,
        },
        Cursor {
            offset: c.offset + 1,
            host: Host::Open(c.offset, 1),
            members: c.members + 2,
        },
    )
}

// The BOOL at a bit that stands already.
fn next_bit(c: Cursor, d: Decl, byte: u32, bit: u8, host: Host) -> Placed
    requires { Able c d }
    ensures { result ≡ next_bit c d byte bit host }
{
    Placed::One(
        Member {
            ty: Ty::Atomic(Atomic::Bool),
            count: 0,
            offset: byte,
            bit: Some(bit),
            hidden: false,
            local: d.local,
            access: d.access,
        },
        Cursor {
            offset: c.offset,
            host,
            members: c.members + 1,
        },
    )
}

// A BOOL takes the next bit of the open host; with no host, or eight bits used, one opens.
#[tactic(auto, unfolding(crate::specs::layout::Placing::place_bool))]
fn place_bool(c: Cursor, d: Decl) -> Placed
    requires { Able c d }
    ensures { result ≡ place_bool c.host c d }
{
    match c.host {
        Host::Open(byte, bit) if bit < 8 => next_bit(c, d, byte, bit, Host::Open(byte, bit + 1)),
        Host::Closed | Host::Open(_, _) => opened(c, d),
        Host::Shared(i) => {
            let byte = 4 * (i / 32) + i % 32 / 8;
            next_bit(c, d, byte, (i % 8) as u8, Host::Shared(i + 1))
        }
    }
}

// The host after any other member: none is open. An AOI's hosts are shared to the end.
#[tactic(auto, unfolding(crate::specs::layout::Placing::closed))]
fn close(host: Host) -> Host
    ensures { result ≡ closed host }
{
    match host {
        Host::Closed | Host::Open(_, _) => Host::Closed,
        Host::Shared(_) => host,
    }
}

// Any other member closes the host, is aligned, and must end at or below 2^26.
fn place_other(c: Cursor, d: Decl) -> Result<Placed, LayoutFault>
    requires { Able c d }
    ensures { result ≡ place_other c d }
{
    let start = align_up(c.offset, d.align);
    let offset = member_end(start, d.size, d.count).ok_or(LayoutFault::TooFar)?;
    Ok(Placed::One(
        Member {
            ty: d.ty,
            count: d.count,
            offset: start,
            bit: None,
            hidden: false,
            local: d.local,
            access: d.access,
        },
        Cursor {
            offset,
            host: close(c.host),
            members: c.members + 1,
        },
    ))
}

// Places one declared member: first its access, then a BOOL or any other.
pub fn place(c: Cursor, d: Decl) -> Result<Placed, LayoutFault>
    requires { Able c d }
    ensures { result ≡ placed c d }
{
    if !access_ok(d.access) {
        return Err(LayoutFault::AccessWrong);
    }
    if is_bool(d.ty) {
        Ok(place_bool(c, d))
    } else {
        place_other(c, d)
    }
}
