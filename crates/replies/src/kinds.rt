// What each kind of question is answered with: the place where the answer ends in the output buffer.
ghost use Rattle.std.specs.Prelude.{◌≤◌, length};
ghost use Rattle.types.specs.tables.Kept.{KeptNames, KeptTables};

use crate::describe::describe;
use crate::faults::Fault;
use crate::normals::tell_normal;
use crate::puts::{BODY, accept, body_end, put, put_count, put_fault};
use crate::shapes::tell_shape;
use crate::streams::{tell_read, tell_text};
use crate::type_words::{ty_of_word, word_of_ty};
use crate::writes::tell_write;
use types::{PredefinedIds, Refusal, Tables, build, find, template, type_header};
use words::Word;

// The kinds of questions.
#[derive(Clone, Copy, Debug, PartialEq, Eq)]
enum Kind {
    Build,
    Describe,
    Template,
    Shape,
    Read,
    Write,
    Text,
    Header,
    Normal,
    Lookup,
}

impl TryFrom<u8> for Kind {
    type Error = Fault;

    fn try_from(number: u8) -> Result<Kind, Fault> {
        match number {
            1 => Ok(Kind::Build),
            2 => Ok(Kind::Describe),
            3 => Ok(Kind::Template),
            4 => Ok(Kind::Shape),
            5 => Ok(Kind::Read),
            6 => Ok(Kind::Write),
            7 => Ok(Kind::Text),
            8 => Ok(Kind::Header),
            9 => Ok(Kind::Normal),
            10 => Ok(Kind::Lookup),
            _ => Err(Fault::NotAQuestion),
        }
    }
}

// The question's book in the tables, under its ids; refused or not, the tables are ours afterwards.
fn rebuild(ids: &[u8], book: &[u8], tables: &mut Tables) -> Result<u32, Refusal>
    requires { 8 ≤ length ids.now }
    ensures { KeptTables tables.new }
{
    let predefined = PredefinedIds {
        timer: u16::load(ids, 0),
        counter: u16::load(ids, 2),
        control: u16::load(ids, 4),
        string: u16::load(ids, 6),
    };
    build(book, predefined, tables)
}

// A book built in the tables: how many types there are.
fn tell_build(rest: &[u8], tables: &mut Tables, out: &mut [u8]) -> Result<usize, Fault>
    requires { KeptTables tables.old }
    ensures { KeptTables tables.new }
{
    if rest.len() < 8 {
        return Err(Fault::NotAQuestion);
    }
    let n = rebuild(rest, &rest[8..], tables)?;
    let k = accept(out);
    Ok(put_count(out, k, n))
}

// The template of a type, written to its place in the answer.
fn tell_template(rest: &[u8], tables: &Tables, out: &mut [u8]) -> Result<usize, Fault>
    requires { KeptTables tables.now }
{
    let end = body_end(rest, 2, out)?;
    let ty = ty_of_word(u16::load(rest, 0));
    let n = template(tables, ty, &mut out[BODY..end])?;
    accept(out);
    Ok(BODY + n as usize)
}

// The header of a type: two bytes or four.
fn tell_header(rest: &[u8], tables: &Tables, out: &mut [u8]) -> Result<usize, Fault> {
    if rest.len() < 2 {
        return Err(Fault::NotAQuestion);
    }
    let header = type_header(&tables.types, ty_of_word(u16::load(rest, 0)))?;
    let long = if header.long < 4 { 2 } else { 4 };
    let mut at = accept(out);
    for byte in &header.bytes[..long] {
        at = put(out, at, *byte);
    }
    Ok(at)
}

// The word of the type with a name.
fn tell_lookup(name: &[u8], tables: &Tables, out: &mut [u8]) -> Result<usize, Fault>
    requires { KeptNames tables.now.types tables.now.names }
{
    let ty = find(&tables.types, &tables.names, name).ok_or(Refusal::NoSuchType)?;
    let k = accept(out);
    Ok(put(out, k, word_of_ty(ty)))
}

// Every kind that leaves the tables as they are.
fn tell(kind: Kind, rest: &[u8], tables: &Tables, out: &mut [u8]) -> Result<usize, Fault>
    requires { KeptTables tables.now }
{
    match kind {
        Kind::Build => Err(Fault::NotAQuestion),
        Kind::Describe => describe(rest, tables, out),
        Kind::Template => tell_template(rest, tables, out),
        Kind::Shape => tell_shape(rest, tables, out),
        Kind::Read => tell_read(rest, tables, out),
        Kind::Write => tell_write(rest, tables, out),
        Kind::Text => tell_text(rest, tables, out),
        Kind::Header => tell_header(rest, tables, out),
        Kind::Normal => tell_normal(rest, tables, out),
        Kind::Lookup => tell_lookup(rest, tables, out),
    }
}

// The answer to a question, or why it has none.
fn reply(question: &[u8], tables: &mut Tables, out: &mut [u8]) -> Result<usize, Fault>
    requires { KeptTables tables.old }
    ensures { KeptTables tables.new }
{
    let Some((number, rest)) = question.split_first() else {
        return Err(Fault::NotAQuestion);
    };
    match Kind::try_from(*number)? {
        Kind::Build => tell_build(rest, tables, out),
        kind => tell(kind, rest, tables, out),
    }
}

// Answers a question.
pub fn answer(question: &[u8], tables: &mut Tables, out: &mut [u8]) -> usize
    requires { KeptTables tables.old }
    ensures { KeptTables tables.new }
{
    match reply(question, tables, out) {
        Ok(end) => end,
        Err(fault) => put_fault(out, fault),
    }
}
