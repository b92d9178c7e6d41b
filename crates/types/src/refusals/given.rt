// Bytes given into a caller's buffer (document 01, refusal 16): whole, from the buffer's start on, or none of them.
ghost use Rattle.std.specs.Prelude.{◌^◌, ◌<◌, true, length};
ghost use Rattle.types.specs.refusals.Given.{Given};

use crate::refusals::refusal::Refusal;
use words::copy;

// Some bytes, where the buffer has room for them; those past them are kept.
pub fn give(s: &[u8], out: &mut [u8]) -> Result<u32, Refusal>
    requires { length s.now < 2 ^ 32 }
    ensures { Given true s.now out.old result out.new }
{
    if out.len() < s.len() {
        return Err(Refusal::NoRoom);
    }
    copy(out, 0, s);
    Ok(s.len() as u32)
}
