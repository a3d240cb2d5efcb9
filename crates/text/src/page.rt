// A page: a lent buffer that is written from its front, a byte, a word or a number after the other.
// A `write!` of std promises nothing about `Ok`, and what stands here must be printed, so a page is no `fmt::Write`.
ghost use Rattle.std.specs.Prelude.{◌≡◌, [], ◌∷◌};
ghost use Rattle.text.specs.Decimal.{blank};
ghost use Rattle.text.specs.Written.{Room, Writes};

use crate::figures::Figures;

#[derive(Drop)]
pub struct Page<'a> {
    out: &'a mut [u8],
    at: usize,
}

impl<'a> Page<'a> {
    pub fn new(out: &'a mut [u8]) -> Page<'a>
        ensures same_buffer { result.out.ghost_name ≡ out.entry.ghost_name }
        ensures holds { result.out.now ≡ out.old }
        ensures empty { result.at ≡ 0 }
    {
        Page { out, at: 0 }
    }

    // How many bytes are written.
    pub fn len(&self) -> usize
        ensures { result ≡ self.now.at }
    {
        self.at
    }

    pub fn byte(&mut self, b: u8)
        requires { Room self.old (b ∷ []) }
        ensures { Writes (b ∷ []) self.old self.new }
    {
        self.out[self.at] = b;
        self.at += 1;
    }

    pub fn word(&mut self, w: &[u8])
        requires { Room self.old w.now }
        ensures { Writes w.now self.old self.new }
    {
        let end = self.at + w.len();
        self.out[self.at..end].copy_from_slice(w);
        self.at = end;
    }

    pub fn number<N: Figures>(&mut self, n: N)
        requires { Room self.old (N.text n) }
        ensures { Writes (N.text n) self.old self.new }
    {
        n.print(self);
    }

    // The next field of a line: a blank, and a number.
    pub fn next<N: Figures>(&mut self, n: N)
        requires { Room self.old (blank ∷ N.text n) }
        ensures { Writes (blank ∷ N.text n) self.old self.new }
    {
        self.byte(b' ');
        n.print(self);
    }
}
