// The structure handle (document 01, "Template and handle"): a fold over the template's bytes that can
// be taken piece by piece, as the template is produced.
ghost use Rattle.std.specs.Prelude.{◌≡◌};
ghost use Rattle.types.specs.templates.Handle.{fold_byte, fold_from, not_zero, handle_of};

// The value before the first byte.
pub const START: u16 = 0x1D0F;

// One byte: rotate left 5 in 16 bits, xor the byte, times 0x9E37, modulo 65,536.
fn fold_byte(h: u16, b: u8) -> u16
    ensures { result ≡ fold_byte h b }
{
    (h.rotate_left(5) ^ u16::from(b)).wrapping_mul(0x9E37)
}

// The fold goes on from h over some more bytes.
pub fn fold_handle(h: u16, s: &[u8]) -> u16
    ensures { result ≡ fold_from h s.now }
{
    s.iter().fold(h, |fold, &b| fold_byte(fold, b))
}

// The handle that a finished fold stands for: 0 becomes 1.
pub fn finish_handle(h: u16) -> u16
    ensures { result ≡ not_zero h }
{
    if h == 0 { 1 } else { h }
}

// The handle of a whole template.
pub fn structure_handle(template: &[u8]) -> u16
    ensures { result ≡ handle_of template.now }
{
    finish_handle(fold_handle(START, template))
}
