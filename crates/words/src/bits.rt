// Single bits: one read out of a slice of bytes, and one set or cleared in a byte.
ghost use Rattle.std.specs.Prelude.{◌≡◌, ◌+◌, ◌*◌, ◌<◌, length};
ghost use Rattle.words.specs.Bits.{flat, with_bit};

// Bit `bit` of the byte at a place.
pub fn bit_at(s: &[u8], at: usize, bit: u8) -> bool
    requires { (at < length s.now) × (bit < 8) }
    ensures { result ≡ flat s.now (8 * at + bit) }
{
    (s[at] >> bit) % 2 == 1
}

// The byte with that bit set or cleared, and its other bits as they were.
pub fn set_bit(byte: &mut u8, bit: u8, value: bool)
    requires { bit < 8 }
    ensures { byte.new ≡ with_bit byte.old bit value }
{
    let was = *byte;
    let mask = 1u8 << bit;
    if value {
        *byte = was | mask;
    } else {
        *byte = was & !mask;
    }
}
