// The predefined types (document 01, "Layout", Predefined; "Order of building"): TIMER, COUNTER, CONTROL and
// STRING, the first four types of every registry, under the ids that the caller gives (else refusal 22).
ghost use Rattle.std.specs.Prelude.{◌≡◌, true, Ok};
ghost use Rattle.types.specs.adding.Add.{yes, new_def};
ghost use Rattle.types.specs.declared.tables.member.StructKind.TheVariants.{Predefined};
ghost use Rattle.types.specs.inside.adding.Add.{Took};
ghost use Rattle.types.specs.inside.layout.Predefined.{ControlReady};
ghost use Rattle.types.specs.inside.layout.Structs.{control_of};
ghost use Rattle.types.specs.inside.tables.Registry.{view_in, Stands};
ghost use Rattle.types.specs.layout.Predefined.{predefined_id, distinct, predefined_ids, predefined};
ghost use Rattle.types.specs.tables.Registry.{no_types, no_members, no_names};

use crate::adding::new_row::{bare_head, enter};
use crate::adding::new_types::store_string;
use crate::adding::used::{Used, used_more};
use crate::layout::fixed::put_control;
use crate::tables::lent::{Tables, put_bytes};
use crate::tables::member::StructKind;

// The ids that the caller gives for the four predefined types.
#[derive(Clone, Copy, Debug, PartialEq, Eq)]
pub struct PredefinedIds {
    pub timer: u16,
    pub counter: u16,
    pub control: u16,
    pub string: u16,
}

// An id of a predefined type: no type of a book can take it.
#[tactic(auto, unfolding(crate::specs::layout::Predefined::predefined_id, crate::specs::templates::Template::user_id))]
fn id_ok(id: u16) -> bool
    ensures { result ≡ predefined_id id }
{
    matches!(id, 1..=0xFF | 0xF00..=0xFFF)
}

// No two of the four are the same.
#[tactic(auto, unfolding(crate::specs::layout::Predefined::distinct))]
fn all_differ(ids: PredefinedIds) -> bool
    ensures { result ≡ distinct ids }
{
    ids.timer != ids.counter
        && ids.timer != ids.control
        && ids.timer != ids.string
        && ids.counter != ids.control
        && ids.counter != ids.string
        && ids.control != ids.string
}

// The ids that a caller gives will do.
#[tactic(auto, unfolding(crate::specs::layout::Predefined::predefined_ids))]
pub fn ids_ok(ids: PredefinedIds) -> bool
    ensures { result ≡ predefined_ids ids }
{
    id_ok(ids.timer)
        && id_ok(ids.counter)
        && id_ok(ids.control)
        && id_ok(ids.string)
        && all_differ(ids)
}

// TIMER, COUNTER or CONTROL, after what is used: its name, those of its two words, and those of its status bits.
fn put_control_def(
    tables: &mut Tables,
    u: Used,
    id: u16,
    name: &[u8],
    words: &[u8],
    bits: &[u8],
) -> Used
    requires { ControlReady tables.old.types tables.old.members tables.old.names u name.now words.now bits.now }
    ensures { Took (yes (new_def (view_in tables.old.types tables.old.names u)
        name.now id 12 Predefined (control_of words.now bits.now))) u
        tables.old.types tables.old.members tables.old.names
        tables.new.types tables.new.members tables.new.names (Ok result) }
{
    let long = name.len();
    let count = 3 + bits.len() / 2;
    put_bytes(&mut tables.names, u.bytes, name);
    put_control(
        &mut tables.members,
        u.members,
        &mut tables.names,
        u.bytes + long,
        words,
        bits,
    );
    let head = bare_head(u, long, id, 12, StructKind::Predefined, count as u32);
    enter(tables, u.types, head);
    used_more(u, count, long + 9 + bits.len())
}

// All four, in tables of no types.
pub fn put_predefined(tables: &mut Tables, ids: PredefinedIds) -> Used
    requires zeroed { (tables.old.types ≡ no_types)
        × ((tables.old.members ≡ no_members) × (tables.old.names ≡ no_names)) }
    requires apart { predefined_ids ids ≡ true }
    ensures { Stands (predefined ids)
        tables.new.types tables.new.members tables.new.names result }
{
    let none = Used {
        types: 0,
        members: 0,
        bytes: 0,
    };
    let one = put_control_def(tables, none, ids.timer, b"TIMER", b"PREACC", b"ENTTDN");
    let two = put_control_def(
        tables,
        one,
        ids.counter,
        b"COUNTER",
        b"PREACC",
        b"CUCDDNOVUN",
    );
    let three = put_control_def(
        tables,
        two,
        ids.control,
        b"CONTROL",
        b"LENPOS",
        b"ENEUDNEMERULINFD",
    );
    store_string(tables, three, ids.string, b"STRING", 82)
}
