// The lines that the program `layout` prints (document 01, end of "Reference cases"): each line is put
// into a lent buffer, a field after the other.
ghost use Rattle.std.specs.Prelude.{◌≡◌, ◌+◌, ◌<◌, ◌≤◌, true, [], ◌∷◌, length};
ghost use Rattle.types.specs.atomics.Atomic.{name_of};
ghost use Rattle.types.specs.inside.listing.Lines.{TypeNamed, Listable, FieldFits, FieldPut, Lined};
ghost use Rattle.types.specs.layout.HostNames.{digits};
ghost use Rattle.types.specs.listing.Lines.{with_stop, line, type_numbers, seen_letter, bit_text, member_place};
ghost use Rattle.types.specs.listing.Lines.{refused_line, printed_type, struct_names, type_line_in, member_line_in};
ghost use Rattle.types.specs.listing.Lines.{has_member};
ghost use Rattle.types.specs.refusals.Given.{Given};
ghost use Rattle.types.specs.tables.Defs.{name_in};
ghost use Rattle.types.specs.tables.Kept.{Kept};
ghost use Rattle.types.specs.tables.Lent.{type_at};
ghost use Rattle.types.specs.tables.Limits.{most_types, most_names};
ghost use Rattle.types.specs.templates.Template.{has_template};

use crate::atomics::atomic::{Atomic, AtomicRow};
use crate::layout::decimals::decimal_of;
use crate::refusals::given::give;
use crate::refusals::refusal::Refusal;
use crate::tables::lent::{Tables, TypeTable, member_row, name_row, type_row};
use crate::tables::member::{Member, Span, StructDef, Ty};
use crate::tables::there::is_there;
use crate::templates::template::template_bytes;
use crate::templates::waste::lost_bits;
use words::copy;

// No line is longer.
const LINE: usize = 512;

// Some bytes from a place on; answers the place after them, as all these functions do.
fn put_text(out: &mut [u8], at: usize, s: &[u8]) -> usize
    requires { FieldFits s.now at out.old }
    ensures { FieldPut s.now at out.old result out.new }
{
    copy(out, at, s);
    at + s.len()
}

// A number's digits.
fn put_decimal(out: &mut [u8], at: usize, x: u64) -> usize
    requires { FieldFits (digits x) at out.old }
    ensures { FieldPut (digits x) at out.old result out.new }
{
    let d = decimal_of(x);
    put_text(out, at, &d.bytes[d.from..])
}

// The byte that ends a field: a space, or a newline after the last.
fn put_stop(out: &mut [u8], at: usize, stop: u8) -> usize
    requires { FieldFits (stop ∷ []) at out.old }
    ensures { FieldPut (stop ∷ []) at out.old result out.new }
{
    out[at] = stop;
    at + 1
}

// A field of some bytes.
fn put_field(out: &mut [u8], at: usize, s: &[u8], stop: u8) -> usize
    requires { FieldFits (with_stop s.now stop) at out.old }
    ensures { FieldPut (with_stop s.now stop) at out.old result out.new }
{
    let next = put_text(out, at, s);
    put_stop(out, next, stop)
}

// A field that is a number.
fn put_number(out: &mut [u8], at: usize, x: u64, stop: u8) -> usize
    requires { FieldFits (with_stop (digits x) stop) at out.old }
    ensures { FieldPut (with_stop (digits x) stop) at out.old result out.new }
{
    let next = put_decimal(out, at, x);
    put_stop(out, next, stop)
}

// A field that is a name of the table.
fn put_name(out: &mut [u8], at: usize, names: &[u8], name: Span, stop: u8) -> usize
    requires { (name.at + name.long ≤ length names.now)
        × FieldFits (with_stop (name_in names.now name) stop) at out.old }
    ensures { FieldPut (with_stop (name_in names.now name) stop) at
        out.old result out.new }
{
    let from = name.at as usize;
    put_field(out, at, &names[from..from + name.long as usize], stop)
}

// A field that is an atomic's name.
fn put_atomic(out: &mut [u8], at: usize, a: Atomic) -> usize
    requires { FieldFits (with_stop (name_of a) 32) at out.old }
    ensures { FieldPut (with_stop (name_of a) 32) at out.old result out.new }
{
    let AtomicRow(_, _, long, name) = a.row();
    put_field(out, at, &name[..long as usize], b' ')
}

// A member's stored type.
fn put_type_name(tables: &Tables, ty: Ty, out: &mut [u8], at: usize) -> usize
    requires { TypeNamed tables.now.types ty × ((length tables.now.names ≡ most_names)
        × FieldFits (with_stop (printed_type (struct_names tables.now.types tables.now.names) ty) 32) at out.old) }
    ensures { FieldPut (with_stop (printed_type (struct_names tables.now.types tables.now.names) ty) 32) at
        out.old result out.new }
{
    match ty {
        Ty::Atomic(a) => put_atomic(out, at, a),
        Ty::Struct(n) => put_name(
            out,
            at,
            &tables.names,
            type_row(&tables.types, n).name,
            b' ',
        ),
    }
}

// Whether a member is hidden or visible.
fn put_seen(out: &mut [u8], at: usize, hidden: bool) -> usize
    requires { FieldFits (with_stop (seen_letter hidden) 32) at out.old }
    ensures { FieldPut (with_stop (seen_letter hidden) 32) at out.old result out.new }
{
    put_field(out, at, if hidden { b"h" } else { b"v" }, b' ')
}

// A member's bit.
fn put_bit(out: &mut [u8], at: usize, bit: Option<u8>) -> usize
    requires { FieldFits (with_stop (bit_text bit) 32) at out.old }
    ensures { FieldPut (with_stop (bit_text bit) 32) at out.old result out.new }
{
    match bit {
        None => put_field(out, at, b"-", b' '),
        Some(k) => put_number(out, at, u64::from(k), b' '),
    }
}

// The numbers of a type line, to its end.
fn put_numbers(d: StructDef, bytes: u32, bits: u64, out: &mut [u8], at: usize) -> usize
    requires { FieldFits (line (type_numbers d.id d.size d.count bytes bits)) at out.old }
    ensures { FieldPut (line (type_numbers d.id d.size d.count bytes bits)) at
        out.old result out.new }
{
    let k1 = put_number(out, at, u64::from(d.id), b' ');
    let k2 = put_number(out, k1, u64::from(d.size), b' ');
    let k3 = put_number(out, k2, u64::from(d.count), b' ');
    let k4 = put_number(out, k3, u64::from(bytes), b' ');
    put_number(out, k4, bits, b'\n')
}

// The line of the structure in a row, in a buffer that is long enough; answers its length.
fn type_line(tables: &Tables, i: usize, out: &mut [u8]) -> usize
    requires { (i < most_types) × (Listable tables.now.types tables.now.members (type_at tables.now.types i)
        × (512 ≤ length out.old)) }
    ensures { Lined (type_line_in tables.now.types tables.now.members tables.now.names
        (type_at tables.now.types i)) out.old result out.new }
{
    let d = type_row(&tables.types, i);
    let bytes = template_bytes(tables, d);
    let bits = lost_bits(&tables.types, &tables.members, d);
    let k1 = put_field(out, 0, b"type", b' ');
    let k2 = put_name(out, k1, &tables.names, d.name, b' ');
    put_numbers(d, bytes, bits, out, k2)
}

// Where a member is and its name, to the line's end.
fn put_place(m: Member, names: &[u8], name: Span, out: &mut [u8], at: usize) -> usize
    requires { (name.at + name.long ≤ length names.now)
        × FieldFits (line (member_place m (name_in names.now name))) at out.old }
    ensures { FieldPut (line (member_place m (name_in names.now name))) at
        out.old result out.new }
{
    let k1 = put_number(out, at, u64::from(m.count), b' ');
    let k2 = put_number(out, k1, u64::from(m.offset), b' ');
    let k3 = put_bit(out, k2, m.bit);
    put_name(out, k3, names, name, b'\n')
}

// The line of the k-th member of the structure in a row.
fn member_line(tables: &Tables, i: usize, k: usize, out: &mut [u8]) -> usize
    requires { (i < most_types) × (Listable tables.now.types tables.now.members (type_at tables.now.types i)
        × ((k < (type_at tables.now.types i).count) × (512 ≤ length out.old))) }
    ensures { Lined (member_line_in tables.now.types tables.now.members tables.now.names
        ((type_at tables.now.types i).first + k) k) out.old result out.new }
{
    let d = type_row(&tables.types, i);
    let row = d.first as usize + k;
    let m = member_row(&tables.members, row);
    let name = name_row(&tables.members, row);
    let k1 = put_number(out, 0, k as u64, b' ');
    let k2 = put_seen(out, k1, m.hidden);
    let k3 = put_type_name(tables, m.ty, out, k2);
    put_place(m, &tables.names, name, out, k3)
}

// The line of a refusal: its number and place.
fn refused_line(out: &mut [u8], number: u8, place: u32) -> usize
    requires { 512 ≤ length out.old }
    ensures { Lined (refused_line number place) out.old result out.new }
{
    let k1 = put_field(out, 0, b"refused", b' ');
    let k2 = put_number(out, k1, u64::from(number), b' ');
    put_number(out, k2, u64::from(place), b'\n')
}

// The line of the type with a number, from the buffer's start on: its length; or 15 or 16, and nothing is written.
pub fn put_type_line(tables: &Tables, i: usize, out: &mut [u8]) -> Result<u32, Refusal>
    requires { Kept tables.now.types tables.now.members tables.now.names }
    ensures { Given (has_template tables.now.types (Ty.Struct i))
        (type_line_in tables.now.types tables.now.members tables.now.names (type_at tables.now.types i))
        out.old result out.new }
{
    if !is_there(&tables.types, Ty::Struct(i)) {
        return Err(Refusal::NoSuchType);
    }
    let mut text = [0u8; LINE];
    let n = type_line(tables, i, &mut text);
    give(&text[..n], out)
}

// The k-th member of the type with a number is there.
fn has_member(types: &TypeTable, i: usize, k: usize) -> bool
    ensures { result ≡ has_member types.now i k }
{
    is_there(types, Ty::Struct(i)) && k < type_row(types, i).count as usize
}

// The line of the k-th member of the type with a number; or 15 or 16, and nothing is written.
pub fn put_member_line(tables: &Tables, i: usize, k: usize, out: &mut [u8]) -> Result<u32, Refusal>
    requires { Kept tables.now.types tables.now.members tables.now.names }
    ensures { Given (has_member tables.now.types i k)
        (member_line_in tables.now.types tables.now.members tables.now.names
        ((type_at tables.now.types i).first + k) k) out.old result out.new }
{
    if !has_member(&tables.types, i, k) {
        return Err(Refusal::NoSuchType);
    }
    let mut text = [0u8; LINE];
    let n = member_line(tables, i, k, &mut text);
    give(&text[..n], out)
}

// The line of a refusal's number and place; or 16, and nothing is written.
pub fn put_refused_line(number: u8, place: u32, out: &mut [u8]) -> Result<u32, Refusal>
    ensures { Given true (refused_line number place) out.old result out.new }
{
    let mut text = [0u8; LINE];
    let n = refused_line(&mut text, number, place);
    give(&text[..n], out)
}
