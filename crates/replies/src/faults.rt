// Why a question has no answer but a number and a place: it is none, or a call refused it.
ghost use Rattle.std.specs.Prelude.{◌≡◌};
ghost use Rattle.replies.specs.declared.faults.Fault.TheVariants.{Refused};

use types::Refusal;

// What a question too short for its fields, or of an unknown kind, is answered with.
const NOT_A_QUESTION: u8 = 255;

#[derive(Clone, Copy, Debug, PartialEq, Eq)]
pub enum Fault {
    NotAQuestion,
    Refused(Refusal),
}

impl Fault {
    pub fn number(self) -> u8 {
        match self {
            Fault::NotAQuestion => NOT_A_QUESTION,
            Fault::Refused(why) => why.number(),
        }
    }

    pub fn place(self) -> u32 {
        match self {
            Fault::NotAQuestion => 0,
            Fault::Refused(why) => why.place(),
        }
    }
}

impl From<Refusal> for Fault {
    ghost from_gives = { λ why fault. fault ≡ Refused why };

    fn from(why: Refusal) -> Fault {
        Fault::Refused(why)
    }
}
