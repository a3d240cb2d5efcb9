// The tree in brackets.
ghost use Rattle.std.specs.Prelude.{◌-◌, ◌*◌, ◌<◌};
ghost use Rattle.orders.specs.Nodes.{node};
ghost use Rattle.orders.specs.Sound.{Ordered};
ghost use Rattle.lines.specs.Brackets.{brackets};
ghost use Rattle.lines.specs.Lines.{second_line};
ghost use Rattle.text.specs.Written.{Room, Writes};

use text::page::Page;

// A join is its two children, each written the same way; they have smaller numbers. A sink is its number.
pub fn subtree(page: &mut Page, js: &[u16], n: usize, k: usize)
    requires ordered { Ordered n js.now }
    requires node { k < 2 * n - 1 }
    requires room { Room page.old (brackets (node n js.now k)) }
    ensures { Writes (brackets (node n js.now k)) page.old page.new }
{
    if k < n {
        return page.number(k);
    }
    let pair = 2 * (k - n);
    let a = usize::from(js[pair]);
    let b = usize::from(js[pair + 1]);
    page.byte(b'(');
    subtree(page, js, n, a);
    page.byte(b' ');
    subtree(page, js, n, b);
    page.byte(b')');
}

// Line 2: the root is the last node.
#[tactic(auto, unfolding(crate::specs::Lines::second_line))]
pub fn tree_line(page: &mut Page, js: &[u16], n: usize)
    requires ordered { Ordered n js.now }
    requires room { Room page.old (second_line n js.now) }
    ensures { Writes (second_line n js.now) page.old page.new }
{
    subtree(page, js, n, 2 * n - 2);
    page.byte(b'\n');
}
