// Where a template's bytes go (document 01, "Template and handle"): a sink counts them, folds them for
// the handle and, if it writes, stores them. So one walk gives a template, its length and its handle.
ghost use Rattle.std.specs.Prelude.{◌+◌};
ghost use Rattle.types.specs.inside.templates.Sink.{SinkRoom, Emitted};

use crate::templates::handle::fold_handle;
use words::copy;

// How many bytes came, the fold over them, and whether they are stored.
#[derive(Clone, Copy, Debug, PartialEq, Eq)]
pub struct Sink {
    pub at: usize,
    pub fold: u16,
    pub writes: bool,
}

// Some more bytes come.
pub fn emit(s: &[u8], sink: Sink, out: &mut [u8]) -> Sink
    requires { SinkRoom s.now sink out.old }
    ensures { Emitted s.now sink out.old result out.new }
{
    if sink.writes {
        copy(out, sink.at, s);
    }
    Sink {
        at: sink.at + s.len(),
        fold: fold_handle(sink.fold, s),
        ..sink
    }
}
