// Refusals (document 01, "Refusal numbers"): a case for each number, with its place where it has one, and a few
// words that say what it means (docs/REFUSALS.md has the whole).
ghost use Rattle.std.specs.Prelude.{◌≡◌, Some};
ghost use Rattle.types.specs.refusals.Refusal.{number_of, place_of};
ghost use Rattle.types.specs.refusals.Words.{words_of};

use std::error::Error;
use std::fmt;

#[derive(Clone, Copy, Debug, PartialEq, Eq)]
pub enum Refusal {
    BookMalformed,
    NameOutsideRule(u32),
    NameKnown(u32),
    IdOutsideRange(u32),
    IdInUse(u32),
    NoIdFree(u32),
    StringWrong(u32),
    MemberTwice(u32),
    LocalOutsideAoi(u32),
    TypesUnknown(u32),
    AccessWrong(u32),
    MemberTooFar(u32),
    TablesFull(u32),
    ImageLength,
    NoSuchType,
    NoRoom,
    StreamMalformed,
    EntryMisfit(u32),
    NumberOutOfRange(u32),
    PastLastPlace(u32),
    TextTooLong(u32),
    PredefinedIds,
    LengthsWrong,
    TagTooLarge,
}

impl Refusal {
    // Its number in the table.
    pub fn number(self) -> u8
        ensures { result ≡ number_of self }
    {
        match self {
            Refusal::BookMalformed => 1,
            Refusal::NameOutsideRule(_) => 2,
            Refusal::NameKnown(_) => 3,
            Refusal::IdOutsideRange(_) => 4,
            Refusal::IdInUse(_) => 5,
            Refusal::NoIdFree(_) => 6,
            Refusal::StringWrong(_) => 7,
            Refusal::MemberTwice(_) => 8,
            Refusal::LocalOutsideAoi(_) => 9,
            Refusal::TypesUnknown(_) => 10,
            Refusal::AccessWrong(_) => 11,
            Refusal::MemberTooFar(_) => 12,
            Refusal::TablesFull(_) => 13,
            Refusal::ImageLength => 14,
            Refusal::NoSuchType => 15,
            Refusal::NoRoom => 16,
            Refusal::StreamMalformed => 17,
            Refusal::EntryMisfit(_) => 18,
            Refusal::NumberOutOfRange(_) => 19,
            Refusal::PastLastPlace(_) => 20,
            Refusal::TextTooLong(_) => 21,
            Refusal::PredefinedIds => 22,
            Refusal::LengthsWrong => 23,
            Refusal::TagTooLarge => 24,
        }
    }

    // Its place: a type's number in the book or an entry's in the stream; 0 where it has none.
    pub fn place(self) -> u32
        ensures { result ≡ place_of self }
    {
        match self {
            Refusal::NameOutsideRule(p)
            | Refusal::NameKnown(p)
            | Refusal::IdOutsideRange(p)
            | Refusal::IdInUse(p)
            | Refusal::NoIdFree(p)
            | Refusal::StringWrong(p)
            | Refusal::MemberTwice(p)
            | Refusal::LocalOutsideAoi(p)
            | Refusal::TypesUnknown(p)
            | Refusal::AccessWrong(p)
            | Refusal::MemberTooFar(p)
            | Refusal::TablesFull(p)
            | Refusal::EntryMisfit(p)
            | Refusal::NumberOutOfRange(p)
            | Refusal::PastLastPlace(p)
            | Refusal::TextTooLong(p) => p,
            Refusal::BookMalformed
            | Refusal::ImageLength
            | Refusal::NoSuchType
            | Refusal::NoRoom
            | Refusal::StreamMalformed
            | Refusal::PredefinedIds
            | Refusal::LengthsWrong
            | Refusal::TagTooLarge => 0,
        }
    }
}

// What went wrong, and the number of the type in the book or of the entry in the stream.
impl fmt::Display for Refusal {
    ghost output = { λ why. Some (words_of why) };

    fn fmt<W: fmt::Write>(&self, f: &mut fmt::Formatter<W>) -> fmt::Result {
        match self {
            Refusal::BookMalformed => write!(f, "the book is malformed"),
            Refusal::NameOutsideRule(p) => write!(f, "type {p}: a name breaks the rule of names"),
            Refusal::NameKnown(p) => write!(f, "type {p}: its name is known already"),
            Refusal::IdOutsideRange(p) => write!(f, "type {p}: its id is outside 0x100..0xEFF"),
            Refusal::IdInUse(p) => write!(f, "type {p}: its id is in use"),
            Refusal::NoIdFree(p) => write!(f, "type {p}: no id is free"),
            Refusal::StringWrong(p) => write!(f, "type {p}: a string type that cannot be one"),
            Refusal::MemberTwice(p) => write!(f, "type {p}: a member name comes twice"),
            Refusal::LocalOutsideAoi(p) => write!(f, "type {p}: a local member outside an AOI"),
            Refusal::TypesUnknown(p) => write!(f, "type {p}: unknown or circular member types"),
            Refusal::AccessWrong(p) => write!(f, "type {p}: an access that is not 0, 2 or 3"),
            Refusal::MemberTooFar(p) => write!(f, "type {p}: a member ends above 2^26 bytes"),
            Refusal::TablesFull(p) => write!(f, "type {p}: the tables are full"),
            Refusal::ImageLength => write!(f, "the image has another length than the value"),
            Refusal::NoSuchType => write!(f, "no such type, or it lacks what was asked for"),
            Refusal::NoRoom => write!(f, "the buffer is too short"),
            Refusal::StreamMalformed => write!(f, "the value stream is malformed"),
            Refusal::EntryMisfit(p) => write!(f, "entry {p}: misfit, missing or left over"),
            Refusal::NumberOutOfRange(p) => write!(f, "entry {p}: a whole number is out of range"),
            Refusal::PastLastPlace(p) => write!(f, "entry {p}: after an array's last place"),
            Refusal::TextTooLong(p) => write!(f, "entry {p}: a text is longer than the capacity"),
            Refusal::PredefinedIds => write!(f, "the predefined ids are wrong"),
            Refusal::LengthsWrong => write!(f, "a tag's lengths are wrong"),
            Refusal::TagTooLarge => write!(f, "the tag is too large"),
        }
    }
}

impl Error for Refusal {}
