// The names of hidden hosts (document 01, "Layout"): how long they are, and their bytes stored among the names.
ghost use Rattle.std.specs.Prelude.{◌≡◌, ◌+◌, ◌<◌, ◌≤◌, length};
ghost use Rattle.std.proofs.lemmas.List.Edits.{sets};
ghost use Rattle.types.specs.inside.layout.HostNames.{HostLong};
ghost use Rattle.types.specs.layout.HostNames.{host_name};
ghost use Rattle.types.specs.tables.Limits.{most_names};

use crate::layout::decimals::{DIGITS, decimal_of};
use crate::tables::lent::{NameTable, put_bytes};

// So many bytes of the type's name stand in its hosts' names.
const TAKEN: usize = 10;

// How long a UDT's host's name is.
pub fn host_long(name: &[u8], k: u32) -> u32
    requires { k < 1000000 }
    ensures { HostLong name.now k result }
{
    let n = TAKEN.min(name.len());
    let d = decimal_of(u64::from(k));
    (10 + n + (DIGITS - d.from)) as u32
}

// A UDT's host's name: ten Z, the type name's first 10 bytes, and the count of members so far.
pub fn put_host_name(names: &mut NameTable, at: usize, name: &[u8], k: u32)
    requires { (k < 1000000) × (at + length (host_name name.now k) ≤ most_names) }
    ensures { names.new ≡ sets names.old at (host_name name.now k) }
{
    let n = TAKEN.min(name.len());
    let d = decimal_of(u64::from(k));
    put_bytes(names, at, b"ZZZZZZZZZZ");
    put_bytes(names, at + 10, &name[..n]);
    put_bytes(names, at + 10 + n, &d.bytes[d.from..]);
}
