// Little-endian words of 1, 2, 4 and 8 bytes, loaded from a place of a slice and stored to one.
ghost use Rattle.std.specs.Prelude.{◌≡◌, ℕ, ◌+◌, ◌≤◌, length};
ghost use Rattle.std.proofs.lemmas.List.Edits.{sets};
ghost use Rattle.words.specs.Words.{bytes_of, word_at};

use crate::copies::copy;

// An unsigned number of a fixed width.
pub trait Word: Copy {
    const BYTES: usize;

    ghost BYTES: { ℕ };

    ghost number: { Self → ℕ };

    // The word at a place.
    fn load(s: &[u8], at: usize) -> Self
        requires { at + BYTES ≤ length s.now }
        ensures { number result ≡ word_at BYTES s.now at };

    // Its bytes at a place; the bytes around them are kept.
    fn store(self, s: &mut [u8], at: usize)
        requires { at + BYTES ≤ length s.old }
        ensures { s.new ≡ sets s.old at (bytes_of BYTES (number self)) };
}

impl Word for u8 {
    const BYTES: usize = 1;

    ghost BYTES = { 1 };

    ghost number = { λ x. x };

    fn load(s: &[u8], at: usize) -> u8 {
        s[at]
    }

    fn store(self, s: &mut [u8], at: usize) {
        s[at] = self;
    }
}

impl Word for u16 {
    const BYTES: usize = 2;

    ghost BYTES = { 2 };

    ghost number = { λ x. x };

    fn load(s: &[u8], at: usize) -> u16 {
        u16::from_le_bytes([s[at], s[at + 1]])
    }

    fn store(self, s: &mut [u8], at: usize) {
        let [low, high] = self.to_le_bytes();
        s[at] = low;
        s[at + 1] = high;
    }
}

impl Word for u32 {
    const BYTES: usize = 4;

    ghost BYTES = { 4 };

    ghost number = { λ x. x };

    fn load(s: &[u8], at: usize) -> u32 {
        u32::from_le_bytes([s[at], s[at + 1], s[at + 2], s[at + 3]])
    }

    fn store(self, s: &mut [u8], at: usize) {
        copy(s, at, &self.to_le_bytes());
    }
}

impl Word for u64 {
    const BYTES: usize = 8;

    ghost BYTES = { 8 };

    ghost number = { λ x. x };

    fn load(s: &[u8], at: usize) -> u64 {
        u64::from_le_bytes([
            s[at],
            s[at + 1],
            s[at + 2],
            s[at + 3],
            s[at + 4],
            s[at + 5],
            s[at + 6],
            s[at + 7],
        ])
    }

    fn store(self, s: &mut [u8], at: usize) {
        copy(s, at, &self.to_le_bytes());
    }
}
