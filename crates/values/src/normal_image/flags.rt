// The BOOLs of a structure kept aside and put back (document 01, "Normal image"), each by its number among all members,
// while what is between the other members is cleared.
ghost use Rattle.std.specs.Prelude.{◌≡◌, ℕ, ◌+◌, ◌*◌, ◌%◌, ◌<◌, ◌≤◌, true, cond, length};
ghost use Rattle.words.specs.Bits.{flat, from, stamp};
ghost use Rattle.types.specs.layout.Laid.{first_bit};
ghost use Rattle.types.specs.tables.Lent.{member_at};
ghost use Rattle.values.specs.inside.normal_image.InPlace.{RowsHere, flag_bit, flagged, is_flag};
ghost use Rattle.values.specs.reading.Trees.{members_at};

use crate::writing::bools::put_bit;
use types::{Member, MemberTable, member_row};
use words::bit_at;

// The bit of a visible BOOL of a host; no other member has one.
fn flag_bit(m: Member) -> Option<u8>
    ensures { result ≡ flag_bit m }
{
    if m.hidden { None } else { m.bit }
}

// One member, if it is a visible BOOL, kept as bit k.
fn keep_flag(
    members: &MemberTable,
    row: usize,
    k: usize,
    image: &[u8],
    base: usize,
    kept: &mut [u8],
)
    requires { RowsHere members.now row 1 base image.now × (k < 8 * length kept.old) }
    ensures { flat kept.new ≡ cond (is_flag (member_at members.now row))
        (stamp k 1 (from (8 * base + first_bit (member_at members.now row)) (flat image.now))
        (flat kept.old))
        (flat kept.old) }
{
    let m = member_row(members, row);
    if let Some(b) = flag_bit(m) {
        let value = bit_at(image, base + m.offset as usize, b);
        put_bit(kept, k / 8, (k % 8) as u8, value);
    }
}

// The BOOLs among the n members from row `first` on, of a structure that begins at `base`.
pub fn keep_flags(
    members: &MemberTable,
    first: usize,
    n: usize,
    image: &[u8],
    base: usize,
    kept: &mut [u8],
)
    requires { RowsHere members.now first n base image.now × (n ≤ 8 * length kept.old) }
    ensures { (k : ℕ) → k < n → is_flag (member_at members.now (first + k)) ≡ true
        → flat kept.new k
        ≡ flat image.now (8 * base + first_bit (member_at members.now (first + k))) }
{
    for k in 0..n {
        keep_flag(members, first + k, k, image, base, kept);
    }
}

// One member, if it is a visible BOOL, put back from bit k.
fn put_flag(members: &MemberTable, row: usize, k: usize, kept: &[u8], image: &mut [u8], base: usize)
    requires { RowsHere members.now row 1 base image.old × (k < 8 * length kept.now) }
    ensures { flat image.new ≡ cond (is_flag (member_at members.now row))
        (stamp (8 * base + first_bit (member_at members.now row)) 1 (from k (flat kept.now))
        (flat image.old))
        (flat image.old) }
{
    let m = member_row(members, row);
    if let Some(b) = flag_bit(m) {
        let value = bit_at(kept, k / 8, (k % 8) as u8);
        put_bit(image, base + m.offset as usize, b, value);
    }
}

pub fn put_flags(
    members: &MemberTable,
    first: usize,
    n: usize,
    kept: &[u8],
    image: &mut [u8],
    base: usize,
)
    requires { RowsHere members.now first n base image.old × (n ≤ 8 * length kept.now) }
    ensures { flat image.new ≡ flagged (flat kept.now) (8 * base) 0
        (members_at members.now first n) (flat image.old) }
{
    for k in 0..n {
        put_flag(members, first + k, k, kept, image, base);
    }
}
