// Names (document 01, "Declaration book"): the rule that a declared name meets, and equality without
// ASCII case.
ghost use Rattle.std.specs.Prelude.{◌≡◌};
ghost use Rattle.types.specs.book.Names.{lower_of, same_name, name_byte, good_name};

// A capital letter as its small one; any other byte as it is.
pub fn lower(x: u8) -> u8
    ensures { result ≡ lower_of x }
{
    x.to_ascii_lowercase()
}

// Two names are the same where they differ in ASCII case at most. Names that end in numbers differ there, so the last
// byte comes first.
pub fn same_name(a: &[u8], b: &[u8]) -> bool
    ensures { result ≡ same_name a.now b.now }
{
    if a.len() != b.len() {
        return false;
    }
    for i in (0..a.len()).rev() {
        if lower(a[i]) != lower(b[i]) {
            return false;
        }
    }
    true
}

// A byte that may stand in a name.
#[tactic(auto, unfolding(crate::specs::book::Names::name_byte))]
fn name_byte(x: u8) -> bool
    ensures { result ≡ name_byte x }
{
    matches!(x, 0x21..=0x7E) && x != b';'
}

// The rule of a type's or a member's name: 1 to 40 such bytes.
#[tactic(auto, unfolding(crate::specs::book::Names::good_name, crate::specs::book::Names::name_bytes))]
pub fn good_name(s: &[u8]) -> bool
    ensures { result ≡ good_name s.now }
{
    (1..=40).contains(&s.len()) && s.iter().all(|&x| name_byte(x))
}
