// Document 01, "Refusal numbers", one type of the book: ids, the checks of its members, its room, its rows.
pub(crate) mod add;
pub(crate) mod checks;
pub(crate) mod ids;
pub(crate) mod new_row;
pub(crate) mod new_types;
pub(crate) mod used;
