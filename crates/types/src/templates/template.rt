// Templates (document 01, "Template and handle"): a structure's template is walked once, piece by piece,
// for its length, for its handle, and to write it.
ghost use Rattle.std.specs.Prelude.{◌≡◌, ◌≤◌, ◌<◌, true, false, length, MatchResult};
ghost use Rattle.std.proofs.lemmas.List.Edits.{sets};
ghost use Rattle.types.specs.refusals.Said.{said_by};
ghost use Rattle.types.specs.inside.tables.Defs.{Readable};
ghost use Rattle.types.specs.inside.templates.Pieces.{Emittable, EmittedAll, front_in};
ghost use Rattle.types.specs.inside.templates.Sink.{Emitted};
ghost use Rattle.types.specs.refusals.Given.{Given};
ghost use Rattle.types.specs.tables.Kept.{Kept};
ghost use Rattle.types.specs.tables.Lent.{type_at};
ghost use Rattle.types.specs.templates.Handle.{handle_of};
ghost use Rattle.types.specs.templates.Template.{has_template, object_size, template_for, template_in};
ghost use Rattle.types.specs.templates.Template.{template_length};

use crate::refusals::refusal::Refusal;
use crate::tables::lent::{Tables, TypeTable, type_row};
use crate::tables::member::{StructDef, Ty};
use crate::tables::there::is_there;
use crate::templates::handle::{START, finish_handle};
use crate::templates::pieces::{
    emit_ids, emit_infos, emit_names, emit_padding, emit_shown, user_id,
};
use crate::templates::sink::{Sink, emit};

// What every template has.
fn emit_front(tables: &Tables, d: StructDef, sink: Sink, out: &mut [u8]) -> Sink
    requires { Emittable tables.now.members tables.now.names d
        (front_in tables.now.types tables.now.members tables.now.names d)
        sink out.old }
    ensures { Emitted (front_in tables.now.types tables.now.members tables.now.names d)
        sink out.old result out.new }
{
    let k1 = emit_infos(tables, d, sink, out);
    let k2 = emit_shown(&tables.names, d, k1, out);
    let k3 = emit(b"\0", k2, out);
    emit_names(tables, d, k3, out)
}

// The whole template, for ids 0x100..0xEFF with padding and member ids.
fn walk(tables: &Tables, d: StructDef, sink: Sink, out: &mut [u8]) -> Sink
    requires { (sink.at ≡ 0)
        × Emittable tables.now.members tables.now.names d (template_in tables.now.types tables.now.members
        tables.now.names d) sink out.old }
    ensures { Emitted (template_in tables.now.types tables.now.members tables.now.names d)
        sink out.old result out.new }
{
    let k1 = emit_front(tables, d, sink, out);
    if user_id(d.id) {
        let k2 = emit_padding(k1, out);
        emit_ids(d.count, k2, out)
    } else {
        k1
    }
}

// The walk that stores nothing.
fn measure(tables: &Tables, d: StructDef) -> Sink
    requires { Readable tables.now.members d }
    ensures { EmittedAll (template_in tables.now.types tables.now.members tables.now.names d) result }
{
    let mut none = [0u8; 1];
    let start = Sink {
        at: 0,
        fold: START,
        writes: false,
    };
    walk(tables, d, start, &mut none)
}

// How many bytes a structure's template has.
pub fn template_bytes(tables: &Tables, d: StructDef) -> u32
    requires { Readable tables.now.members d }
    ensures { result ≡ length (template_in tables.now.types tables.now.members tables.now.names d) }
{
    measure(tables, d).at as u32
}

// The handle of a structure's template.
pub fn template_handle(tables: &Tables, d: StructDef) -> u16
    requires { Readable tables.now.members d }
    ensures { result ≡ handle_of (template_in tables.now.types tables.now.members tables.now.names d) }
{
    finish_handle(measure(tables, d).fold)
}

// Stores a structure's template; the bytes past it are kept.
pub fn write_template(tables: &Tables, d: StructDef, out: &mut [u8])
    requires { Readable tables.now.members d
        × (length (template_in tables.now.types tables.now.members tables.now.names d) ≤ length out.old) }
    ensures { out.new
        ≡ sets out.old 0 (template_in tables.now.types tables.now.members tables.now.names d) }
{
    let start = Sink {
        at: 0,
        fold: START,
        writes: true,
    };
    walk(tables, d, start, out);
}

// The structure with a number; or 15.
pub fn struct_there(types: &TypeTable, n: usize) -> Result<StructDef, Refusal>
    ensures { MatchResult result
        (λ d. (has_template types.now (Ty.Struct n) ≡ true) × (d ≡ type_at types.now n))
        (λ e. (has_template types.now (Ty.Struct n) ≡ false) × (e ≡ Refusal.NoSuchType)) }
{
    if !is_there(types, Ty::Struct(n)) {
        return Err(Refusal::NoSuchType);
    }
    Ok(type_row(types, n))
}

// The length of the template of the structure with a number; or 15.
pub fn template_len(tables: &Tables, n: usize) -> Result<u32, Refusal>
    requires { Kept tables.now.types tables.now.members tables.now.names }
    ensures { said_by result ≡ template_length tables.now.types tables.now.members tables.now.names n }
{
    let d = struct_there(&tables.types, n)?;
    Ok(template_bytes(tables, d))
}

// The object definition size of a template of n bytes.
pub fn object_definition_size(n: u32) -> u32
    ensures { result ≡ object_size n }
{
    (u64::from(n) + 23).div_ceil(4) as u32
}

// The template of a type, stored from the buffer's start on: its length; or a refusal, and nothing stored.
pub fn template(tables: &Tables, ty: Ty, out: &mut [u8]) -> Result<u32, Refusal>
    requires { Kept tables.now.types tables.now.members tables.now.names }
    ensures { Given (has_template tables.now.types ty)
        (template_for tables.now.types tables.now.members tables.now.names ty)
        out.old result out.new }
{
    let Ty::Struct(n) = ty else {
        return Err(Refusal::NoSuchType);
    };
    let d = struct_there(&tables.types, n)?;
    let long = template_bytes(tables, d);
    if out.len() < long as usize {
        return Err(Refusal::NoRoom);
    }
    write_template(tables, d, out);
    Ok(long)
}
