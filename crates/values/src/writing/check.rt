// The check of structures and their arrays (document 01, "Writing"): it touches no image. Structures call arrays and
// arrays structures; a structure holds only earlier ones, so the number falls, and the members' loop consumes entries.
ghost use Rattle.std.specs.Prelude.{◌≡◌, ℕ, ◌+◌, ◌*◌, ◌<◌, ◌≤◌};
ghost use Rattle.types.specs.tables.Lent.{member_at};
ghost use Rattle.types.specs.tables.Limits.{most_types, most_members};
ghost use Rattle.types.specs.tables.Sizes.{sizes_in};
ghost use Rattle.values.specs.inside.reading.Walkable.{NestedRow, Walkable};
ghost use Rattle.values.specs.inside.writing.Passes.{CheckedFrom, WellFormed, left_at};
ghost use Rattle.values.specs.inside.writing.Rows.{branches_in, member_tree, tree_in, visible_row};
ghost use Rattle.values.specs.reading.Tree.{array, struct};
ghost use Rattle.values.specs.writing.Writing.{write};

use crate::reading::rows::{capacity_at, is_nested, is_string, nested_in};
use crate::stream::kinds;
use crate::stream::tokens::{kind_at, kind_of, payload_of};
use crate::writing::fits::{check_leaf, check_text, close_at};
use types::{MemberTable, Refusal, TypeTable, member_row, type_row};

// The row of the visible member of a number, among `count` from row `first` on.
fn visible_row(members: &MemberTable, first: usize, count: usize, j: usize) -> Option<usize>
    requires { first + count ≤ most_members }
    ensures { result ≡ visible_row members.now first count j }
{
    if count <= j {
        return None;
    }
    if member_row(members, first + j).hidden {
        None
    } else {
        Some(first + j)
    }
}

// Structure i.
#[cycle(checking)]
pub fn check_struct(
    types: &TypeTable,
    members: &MemberTable,
    i: usize,
    s: &[u8],
    n: usize,
    k: usize,
) -> Result<usize, Refusal>
    requires walkable { Walkable types.now members.now × (i < most_types) }
    requires well_formed { WellFormed s.now n × (k ≤ n) }
    ensures { (p : ℕ) → CheckedFrom s.now k result
        (write (tree_in types.now members.now i) p (left_at s.now k)) }
{
    let d = type_row(types, i);
    if is_string(d.kind) {
        let capacity = capacity_at(members, d.first as usize);
        return check_text(capacity, s, n, k);
    }
    check_members(types, members, i, s, n, k)
}

// Its members, in any order, or null.
#[cycle(checking)]
fn check_members(
    types: &TypeTable,
    members: &MemberTable,
    i: usize,
    s: &[u8],
    n: usize,
    k: usize,
) -> Result<usize, Refusal>
    requires walkable { Walkable types.now members.now × (i < most_types) }
    requires well_formed { WellFormed s.now n × (k ≤ n) }
    ensures { (p : ℕ) → CheckedFrom s.now k result
        (write (struct (8 * sizes_in types.now i)
        (branches_in types.now members.now i)) p (left_at s.now k)) }
{
    match kind_at(s, n, k) {
        kinds::NULL => return Ok(k + 1),
        kinds::OPEN => {}
        _ => return Err(Refusal::EntryMisfit(k as u32)),
    }
    let d = type_row(types, i);
    let mut p = k + 1;
    while p < n {
        match kind_of(s, p) {
            kinds::CLOSE => return Ok(p + 1),
            kinds::MEMBER => {}
            _ => return Err(Refusal::EntryMisfit(p as u32)),
        }
        let j = payload_of(s, p) as usize;
        let Some(row) = visible_row(members, d.first as usize, d.count as usize, j) else {
            return Err(Refusal::EntryMisfit(p as u32));
        };
        p = if is_nested(members, row) {
            check_nested(types, members, i, row, s, n, p + 1)?
        } else {
            check_leaf(members, row, s, n, p + 1)?
        };
    }
    Err(Refusal::EntryMisfit(p as u32))
}

// The structure, or the array of structures, in a row of structure i.
#[cycle(checking)]
fn check_nested(
    types: &TypeTable,
    members: &MemberTable,
    i: usize,
    row: usize,
    s: &[u8],
    n: usize,
    k: usize,
) -> Result<usize, Refusal>
    requires walkable { Walkable types.now members.now
        × NestedRow types.now members.now i row }
    requires well_formed { WellFormed s.now n × (k ≤ n) }
    ensures { (p : ℕ) → CheckedFrom s.now k result
        (write (member_tree (tree_in types.now members.now) (member_at members.now row)) p
        (left_at s.now k)) }
{
    let m = nested_in(members, row);
    if m.count == 0 {
        return check_struct(types, members, m.structure, s, n, k);
    }
    check_elements(types, members, m.structure, m.count, s, n, k)
}

// An array of structures i, or null.
#[cycle(checking)]
pub fn check_elements(
    types: &TypeTable,
    members: &MemberTable,
    i: usize,
    count: usize,
    s: &[u8],
    n: usize,
    k: usize,
) -> Result<usize, Refusal>
    requires walkable { Walkable types.now members.now × (i < most_types) }
    requires well_formed { WellFormed s.now n × (k ≤ n) }
    ensures { (p : ℕ) → CheckedFrom s.now k result
        (write (array count (tree_in types.now members.now i)) p (left_at s.now k)) }
{
    match kind_at(s, n, k) {
        kinds::NULL => return Ok(k + 1),
        kinds::ARRAY_OPEN => {}
        _ => return Err(Refusal::EntryMisfit(k as u32)),
    }
    let mut p = k + 1;
    for _e in 0..count {
        if n <= p {
            return Err(Refusal::EntryMisfit(p as u32));
        }
        if kind_of(s, p) == kinds::ARRAY_CLOSE {
            return Ok(p + 1);
        }
        p = check_struct(types, members, i, s, n, p)?;
    }
    close_at(s, n, p)
}
