// The two halves of a number of 64 bits.
ghost use Rattle.std.specs.Prelude.{◌≡◌, ◌/◌, ◌%◌, ◌^◌};

pub fn low32(x: u64) -> u32
    ensures { result ≡ x % 256 ^ 4 }
{
    (x % 0x1_0000_0000) as u32
}

pub fn high32(x: u64) -> u32
    ensures { result ≡ x / 256 ^ 4 }
{
    (x / 0x1_0000_0000) as u32
}
