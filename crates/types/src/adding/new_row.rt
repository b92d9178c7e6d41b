// The row of a new type (document 01, "Template and handle"): its members and names stand already, and its handle is
// that of its template.
ghost use Rattle.std.specs.Prelude.{◌≡◌, ◌*◌, ◌<◌, ◌≤◌};
ghost use Rattle.std.proofs.lemmas.List.Edits.{sets};
ghost use Rattle.types.specs.inside.tables.Defs.{Readable};
ghost use Rattle.types.specs.inside.tables.Registry.{with_handle, bare_head};
ghost use Rattle.types.specs.tables.Lent.{type_row};
ghost use Rattle.types.specs.tables.Limits.{most_types, most_members, most_names};
ghost use Rattle.types.specs.templates.Handle.{handle_of};
ghost use Rattle.types.specs.templates.Template.{template_in};

use crate::adding::used::Used;
use crate::tables::lent::{Tables, put_type};
use crate::tables::member::{Span, StructDef, StructKind};
use crate::templates::template::template_handle;

// Stores a type's row, with the handle that its template gives; its members and names stand already.
pub fn enter(tables: &mut Tables, i: usize, head: StructDef)
    requires { (i < most_types) × Readable tables.old.members head }
    ensures types { tables.new.types ≡ sets tables.old.types (8 * i) (type_row (with_handle head
        (handle_of (template_in tables.old.types tables.old.members tables.old.names head)))) }
    ensures members { tables.new.members ≡ tables.old.members }
    ensures names { tables.new.names ≡ tables.old.names }
{
    let handle = template_handle(tables, head);
    put_type(&mut tables.types, i, StructDef { handle, ..head });
}

// The row of a type whose name and parts stand from the used rows and bytes on, still without its handle.
pub fn bare_head(
    u: Used,
    long: usize,
    id: u16,
    size: u32,
    kind: StructKind,
    count: u32,
) -> StructDef
    requires { (u.members ≤ most_members) × ((u.bytes ≤ most_names) × (long ≤ most_names)) }
    ensures { result ≡ bare_head u long id size kind count }
{
    StructDef {
        name: Span {
            at: u.bytes as u32,
            long: long as u32,
        },
        id,
        handle: 0,
        size,
        kind,
        first: u.members as u32,
        count,
    }
}
