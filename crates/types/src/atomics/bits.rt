// One bit of a byte, set or cleared (document 01, "What is ported": `set_bit`).
ghost use Rattle.std.specs.Prelude.{◌≡◌};
ghost use Rattle.types.specs.atomics.Bits.{bit_set};

// The byte with that bit set or cleared, and its other bits as they were. A byte has eight bits: any other leaves it.
pub fn set_bit(byte: &mut u8, bit: u8, value: bool)
    ensures { byte.new ≡ bit_set byte.old bit value }
{
    if bit < 8 {
        words::set_bit(byte, bit, value);
    }
}
