// Document 01, "Declaration book", the tables that hold what was built, and their rows.
pub(crate) mod count;
pub(crate) mod lent;
pub(crate) mod member;
pub(crate) mod rows;
pub(crate) mod sizes;
pub(crate) mod there;
pub(crate) mod type_word;
