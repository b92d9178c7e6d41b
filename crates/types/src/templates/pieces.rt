// The pieces of a template (document 01, "Template and handle"), in their order: the members' infos, the
// type's shown name, the member names, the padding and the member ids. Each goes to a sink.
ghost use Rattle.std.specs.Prelude.{◌≡◌, ◌+◌, ◌<◌, ◌≤◌, ◌++◌, length};
ghost use Rattle.types.specs.inside.tables.Defs.{Readable};
ghost use Rattle.types.specs.inside.tables.Lent.{TyFits};
ghost use Rattle.types.specs.inside.templates.Pieces.{infos_in, shown_in, names_in, Emittable};
ghost use Rattle.types.specs.inside.templates.Sink.{SinkRoom, Emitted};
ghost use Rattle.types.specs.tables.Defs.{name_in};
ghost use Rattle.types.specs.tables.Lent.{member_at};
ghost use Rattle.types.specs.tables.Limits.{most_members};
ghost use Rattle.types.specs.tables.TypeWord.{ids_in};
ghost use Rattle.types.specs.templates.Template.{info_of, info_bytes, user_id, semicolon_n, padding, member_ids};

use crate::tables::lent::{Tables, member_row, name_row};
use crate::tables::member::{Span, StructDef, StructKind};
use crate::tables::type_word::type_in;
use crate::templates::sink::{Sink, emit};
use words::Word;

// Bit number, else the low 16 bits of the count.
fn info_of(bit: Option<u8>, count: u32) -> u16
    ensures { result ≡ info_of bit count }
{
    match bit {
        None => (count % 0x1_0000) as u16,
        Some(k) => u16::from(k),
    }
}

// The eight bytes of the member in a row.
fn info(tables: &Tables, row: usize) -> [u8; 8]
    requires { (row < most_members) × TyFits (member_at tables.now.members row).ty }
    ensures { result ≡ info_bytes (ids_in tables.now.types) (member_at tables.now.members row) }
{
    let m = member_row(&tables.members, row);
    let word = type_in(&tables.types, m.ty);
    let mut bytes = [0u8; 8];
    info_of(m.bit, m.count).store(&mut bytes, 0);
    ((word % 0x1_0000) as u16).store(&mut bytes, 2);
    m.offset.store(&mut bytes, 4);
    bytes
}

// The infos of a structure's members.
pub fn emit_infos(tables: &Tables, d: StructDef, sink: Sink, out: &mut [u8]) -> Sink
    requires { Readable tables.now.members d × SinkRoom (infos_in tables.now.types tables.now.members d) sink out.old }
    ensures { Emitted (infos_in tables.now.types tables.now.members d)
        sink out.old result out.new }
{
    let first = d.first as usize;
    let mut k = sink;
    for row in first..first + d.count as usize {
        k = emit(&info(tables, row), k, out);
    }
    k
}

// A name of the table.
fn emit_name(names: &[u8], name: Span, sink: Sink, out: &mut [u8]) -> Sink
    requires { (name.at + name.long ≤ length names.now) × SinkRoom (name_in names.now name) sink out.old }
    ensures { Emitted (name_in names.now name) sink out.old result out.new }
{
    let from = name.at as usize;
    emit(&names[from..from + name.long as usize], sink, out)
}

// A name of the table with `;n`.
fn emit_name_n(names: &[u8], name: Span, sink: Sink, out: &mut [u8]) -> Sink
    requires { (name.at + name.long ≤ length names.now) × SinkRoom (name_in names.now name ++ semicolon_n)
        sink out.old }
    ensures { Emitted (name_in names.now name ++ semicolon_n)
        sink out.old result out.new }
{
    let k = emit_name(names, name, sink, out);
    emit(b";n", k, out)
}

// Ids that a book's types can have.
pub fn user_id(id: u16) -> bool
    ensures { result ≡ user_id id }
{
    0x100 <= id && id <= 0xEFF
}

// The type's name as a template has it.
#[tactic(auto, using(crate::proofs::templates::TemplateLaws::shown))]
pub fn emit_shown(names: &[u8], d: StructDef, sink: Sink, out: &mut [u8]) -> Sink
    requires { (d.name.at + d.name.long ≤ length names.now)
        × SinkRoom (shown_in names.now d) sink out.old }
    ensures { Emitted (shown_in names.now d) sink out.old result out.new }
{
    match d.kind {
        StructKind::Udt => emit_name_n(names, d.name, sink, out),
        StructKind::Predefined => emit_name(names, d.name, sink, out),
        StructKind::Str if user_id(d.id) => emit_name_n(names, d.name, sink, out),
        StructKind::Str => emit(b"ASCIISTRING82", sink, out),
        StructKind::Aoi => emit_name_n(names, d.name, sink, out),
    }
}

// Each member's name and 0.
pub fn emit_names(tables: &Tables, d: StructDef, sink: Sink, out: &mut [u8]) -> Sink
    requires { Emittable tables.now.members tables.now.names d (names_in tables.now.members tables.now.names d) sink
        out.old }
    ensures { Emitted (names_in tables.now.members tables.now.names d)
        sink out.old result out.new }
{
    let first = d.first as usize;
    let mut k = sink;
    for row in first..first + d.count as usize {
        k = emit_name(&tables.names, name_row(&tables.members, row), k, out);
        k = emit(b"\0", k, out);
    }
    k
}

// Zeros to a multiple of 4.
pub fn emit_padding(sink: Sink, out: &mut [u8]) -> Sink
    requires { SinkRoom (padding sink.at) sink out.old }
    ensures { Emitted (padding sink.at) sink out.old result out.new }
{
    let n = sink.at.next_multiple_of(4) - sink.at;
    emit(&[0u8; 3][..n], sink, out)
}

// The ids of n members.
pub fn emit_ids(n: u32, sink: Sink, out: &mut [u8]) -> Sink
    requires { (n ≤ most_members) × SinkRoom (member_ids 0 n) sink out.old }
    ensures { Emitted (member_ids 0 n) sink out.old result out.new }
{
    let mut k = sink;
    for i in 0..n {
        k = emit(&((0xE000 + i) as u16).to_le_bytes(), k, out);
    }
    k
}
