// Numbers as bytes, the highest byte first, read from a slice and written on a page.
ghost use Rattle.std.specs.Prelude.{◌≡◌, ℕ, ◌+◌, ◌≤◌, ◌<◌, length};
ghost use Rattle.std.proofs.Common.{rules};
ghost use Rattle.text.specs.Written.{Room, Writes};
ghost use Rattle.fields.specs.Bytes.{big, number_at, bits, signed};

use text::page::Page;

// A number that stands in so many bytes, as a whole number from 0 on.
pub trait Number: Copy {
    const SIZE: usize;

    ghost SIZE: { ℕ };

    ghost whole: { Self → ℕ };

    ghost made: { ℕ → Self };

    fn put(self, page: &mut Page)
        requires { Room page.old (big SIZE (whole self)) }
        ensures { Writes (big SIZE (whole self)) page.old page.new };

    fn read(s: &[u8], at: usize) -> Self
        requires { at + SIZE ≤ length s.now }
        ensures { result ≡ made (number_at SIZE s.now at) };

    ghost some: { 0 < SIZE };
}

impl Number for u16 {
    const SIZE: usize = 2;

    ghost SIZE = { 2 };

    ghost whole = { λ n. n };

    ghost made = { λ n. n };

    ghost some = { Prim.search rules };

    fn put(self, page: &mut Page) {
        page.word(&self.to_be_bytes());
    }

    fn read(s: &[u8], at: usize) -> u16 {
        u16::from_be_bytes([s[at], s[at + 1]])
    }
}

impl Number for u32 {
    const SIZE: usize = 4;

    ghost SIZE = { 4 };

    ghost whole = { λ n. n };

    ghost made = { λ n. n };

    ghost some = { Prim.search rules };

    fn put(self, page: &mut Page) {
        page.word(&self.to_be_bytes());
    }

    fn read(s: &[u8], at: usize) -> u32 {
        u32::from_be_bytes([s[at], s[at + 1], s[at + 2], s[at + 3]])
    }
}

// In two's complement.
impl Number for i32 {
    const SIZE: usize = 4;

    ghost SIZE = { 4 };

    ghost whole = { bits };

    ghost made = { signed };

    ghost some = { Prim.search rules };

    fn put(self, page: &mut Page) {
        self.cast_unsigned().put(page);
    }

    fn read(s: &[u8], at: usize) -> i32 {
        u32::read(s, at).cast_signed()
    }
}
