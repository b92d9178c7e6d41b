// Types and layouts (document 01's first crate): a declaration book is built into lent tables, and the tables
// answer for their types: rows, templates, headers, waste, tag shapes, listings.
#![tactic(auto)]

mod adding;
mod atomics;
mod book;
mod layout;
mod listing;
mod refusals;
mod rounds;
mod shape;
mod tables;
mod templates;

pub use atomics::atomic::{Atomic, AtomicRow};
pub use atomics::bits::set_bit;
pub use atomics::header::{Header, type_header};
pub use atomics::lookup::find;
pub use book::names::{good_name, same_name};
pub use layout::placing::member_end;
pub use layout::predefined::PredefinedIds;
pub use listing::lines::{put_member_line, put_refused_line, put_type_line};
pub use refusals::refusal::Refusal;
pub use rounds::build::build;
pub use shape::tags::{Shape, symbol_type, tag_shape};
pub use tables::count::type_count;
pub use tables::lent::{MemberTable, NameTable, Tables, TypeTable, no_members, no_names, no_types};
pub use tables::member::{Member, Span, StructDef, StructKind, Ty};
pub use tables::rows::{member_at, name_at, type_at};
pub use tables::there::is_there;
pub use templates::handle::structure_handle;
pub use templates::template::{object_definition_size, template, template_len};
pub use templates::waste::waste;

// For the crates above, which have a row's bound at hand and ask at every leaf: the row readers without their test,
// and how many members the tables hold.
pub use tables::lent::{MEMBERS, member_row, name_row, type_row};
