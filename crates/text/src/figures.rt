// Numbers in figures: a count, a coordinate, a wire.
ghost use Rattle.std.specs.Prelude.{List, ℕ};
ghost use Rattle.text.specs.Decimal.{decimal, signed};
ghost use Rattle.text.specs.Written.{Room, Writes};

use crate::page::Page;

pub trait Figures: Copy {
    ghost text: { Self → List ℕ };

    fn print(self, page: &mut Page)
        requires { Room page.old (text self) }
        ensures { Writes (text self) page.old page.new };
}

// The kit's `itoa` was tried: its buffer and the copy out of it cost three times what these few digits do.
fn digits(page: &mut Page, n: usize)
    requires { Room page.old (decimal n) }
    ensures { Writes (decimal n) page.old page.new }
{
    if n < 10 {
        return page.byte(b'0' + n as u8);
    }
    digits(page, n / 10);
    page.byte(b'0' + (n % 10) as u8);
}

impl Figures for usize {
    ghost text = { decimal };

    fn print(self, page: &mut Page) {
        digits(page, self);
    }
}

impl Figures for u32 {
    ghost text = { decimal };

    fn print(self, page: &mut Page) {
        digits(page, self as usize);
    }
}

impl Figures for i32 {
    ghost text = { signed };

    fn print(self, page: &mut Page) {
        if self < 0 {
            page.byte(b'-');
        }
        digits(page, self.unsigned_abs() as usize);
    }
}
