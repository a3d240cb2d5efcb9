// All lines of a tree.
ghost use Rattle.std.specs.Prelude.{◌+◌, ◌≤◌, length};
ghost use Rattle.lines.specs.Parts.{Grown, text_with};
ghost use Rattle.text.specs.Written.{Writes};

use crate::embedded::Embedded;
use crate::{brackets, line};
use orders::nodes;
use text::page::Page;

// The lines of a tree, on a page with room for every answer.
#[tactic(auto, using(crate::proofs::Size::first_lines, crate::proofs::Same::parents_up))]
pub fn tree_text(page: &mut Page, t: &Embedded, proven: bool)
    requires tree { Grown t.now }
    requires room { page.old.at + 49152 ≤ length page.old.out.now }
    ensures writes { Writes (text_with t.now proven) page.old page.new }
    ensures within { page.new.at ≤ page.old.at + 49152 }
{
    let ps = nodes::parents(t.js, t.n);
    line::first_line(page, t.n, t.total, proven);
    brackets::tree_line(page, t.js, t.n);
    line::node_lines(page, t, &ps);
}
