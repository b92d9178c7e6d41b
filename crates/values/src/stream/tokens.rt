// One entry of a stream whose form is good (document 01, "Value stream"), by its number: its kind and its payload,
// where they stand in the stream's bytes.
ghost use Rattle.std.specs.Prelude.{◌≡◌, ◌+◌, ◌*◌, ◌<◌, true};
ghost use Rattle.words.specs.Words.{word_at};
ghost use Rattle.values.specs.inside.writing.Passes.{WellFormed, first_kind, left_at};
ghost use Rattle.values.specs.stream.Form.{count_in, stream_ok};

use crate::stream::kinds;
use words::Word;

// The kind of entry k.
pub fn kind_of(s: &[u8], k: usize) -> u8
    requires { (stream_ok s.now ≡ true) × (k < count_in s.now) }
    ensures { result ≡ first_kind (left_at s.now k) }
{
    s[4 + 12 * k]
}

// The same of n entries; 12 where there is none.
pub fn kind_at(s: &[u8], n: usize, k: usize) -> u8
    requires { WellFormed s.now n }
    ensures { result ≡ first_kind (left_at s.now k) }
{
    if k < n { kind_of(s, k) } else { kinds::NO_KIND }
}

// The payload of entry k.
pub fn payload_of(s: &[u8], k: usize) -> u64
    requires { (stream_ok s.now ≡ true) × (k < count_in s.now) }
    ensures { result ≡ word_at 8 s.now (8 + 12 * k) }
{
    u64::load(s, 8 + 12 * k)
}
