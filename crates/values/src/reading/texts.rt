// Strings (document 01, "Reading"): the stored text is min(LEN as u32, capacity) bytes of DATA.
ghost use Rattle.std.specs.Prelude.{◌≡◌, ◌+◌, ◌*◌, ◌≤◌, length};
ghost use Rattle.values.specs.inside.reading.Walk.{text_out};
ghost use Rattle.values.specs.inside.stream.Laying.{StreamRoom, TokensLaid};
ghost use Rattle.values.specs.reading.Texts.{text_length};

use crate::stream::entry::put_entry;
use crate::stream::kinds;
use crate::stream::place::Place;
use words::{Word, copy};

// How long the stored text is.
pub fn text_length(capacity: u32, image: &[u8]) -> usize
    requires { 4 ≤ length image.now }
    ensures { result ≡ text_length capacity image.now }
{
    u32::load(image, 0).min(capacity) as usize
}

// The text's entry, and its bytes among the bodies.
pub fn put_text(
    capacity: u32,
    image: &[u8],
    out: &mut [u8],
    base: usize,
    at: usize,
    text: usize,
) -> Place
    requires { (4 + capacity ≤ length image.now)
        × StreamRoom (length out.old) base at text (text_out capacity image.now) }
    ensures { TokensLaid out.old base at text (text_out capacity image.now)
        out.new result }
{
    let n = text_length(capacity, image);
    put_entry(out, at, kinds::TEXT, text as u64 + 0x1_0000_0000 * n as u64);
    let end = 4 + n;
    copy(out, base + text, &image[4..end]);
    Place {
        at: at + 12,
        text: text + n,
    }
}
