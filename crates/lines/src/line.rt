// The lines: line 1, the line of each node, and a refusal.
ghost use Rattle.std.specs.Prelude.{◌≡◌, [], ◌∷◌, ◌++◌, ◌+◌, ◌-◌, ◌*◌, ◌≤◌, ◌<◌, length};
ghost use Rattle.lines.specs.Lines.{feed, mark, first_line, node_line, node_lines, refusal_line, too_long};
ghost use Rattle.lines.specs.Parts.{ParentsUp, Tall, from_parent, place_end};
ghost use Rattle.text.specs.Decimal.{blank};
ghost use Rattle.text.specs.Written.{Room, Writes};

use crate::embedded::Embedded;
use plane::refusal;
use plane::refusal::Refusal;
use text::page::Page;

// The last field of line 1: whether the tree is proven.
fn last_field(proven: bool) -> &'static [u8]
    ensures { result.now ≡ blank ∷ mark proven ++ (feed ∷ []) }
{
    if proven { b" proven\n" } else { b" greedy\n" }
}

#[tactic(auto, unfolding(crate::specs::Lines::first_line))]
pub fn first_line(page: &mut Page, n: usize, total: u32, proven: bool)
    requires { Room page.old (first_line n total proven) }
    ensures { Writes (first_line n total proven) page.old page.new }
{
    page.word(b"sinks ");
    page.number(n);
    page.word(b" wire ");
    page.number(total);
    page.word(last_field(proven));
}

// The last field of a node's line: its parent, and - for the root.
#[tactic(auto, using(crate::proofs::Size::parent_figures))]
fn parent_field(page: &mut Page, n: usize, ps: &[usize], k: usize)
    requires parents { ParentsUp n ps.now }
    requires node { k < 2 * n - 1 }
    requires room { page.old.at + 6 ≤ length page.old.out.now }
    ensures writes { Writes (from_parent n ps.now k) page.old page.new }
    ensures within { page.new.at ≤ page.old.at + 6 }
{
    if k == 2 * n - 2 {
        return page.word(b" -\n");
    }
    page.next(ps[k]);
    page.byte(b'\n');
}

// The line of node k, of at most 45 bytes.
#[tactic(auto, using(crate::proofs::Size::figures))]
fn node_line(page: &mut Page, t: &Embedded, ps: &[usize], k: usize)
    requires tall { Tall t.now ps.now }
    requires node { k < 2 * t.now.n - 1 }
    requires room { page.old.at + 45 ≤ length page.old.out.now }
    ensures writes { Writes (node_line t.now.n ps.now t.now.us.now t.now.vs.now t.now.ws.now k) page.old page.new }
    ensures within { page.new.at ≤ page.old.at + 45 }
{
    page.number(k);
    page.next(t.us[k]);
    page.next(t.vs[k]);
    page.next(t.ws[k]);
    parent_field(page, t.n, ps, k);
}

// The lines of all nodes.
#[tactic(auto, using(crate::proofs::Fields::line_next), unfolding(crate::specs::Lines::node_lines))]
pub fn node_lines(page: &mut Page, t: &Embedded, ps: &[usize])
    requires tall { Tall t.now ps.now }
    requires room { page.old.at + 45 * (2 * t.now.n - 1) ≤ length page.old.out.now }
    ensures writes { Writes (node_lines t.now.n ps.now t.now.us.now t.now.vs.now t.now.ws.now (2 * t.now.n - 1)) page.old page.new }
    ensures within { page.new.at ≤ page.old.at + 45 * (2 * t.now.n - 1) }
{
    for k in 0..2 * t.n - 1 {
        node_line(page, t, ps, k);
    }
}

// The end of a refusal: the place if any.
#[tactic(auto, using(crate::proofs::Size::figures))]
fn place_end(page: &mut Page, p: Option<usize>)
    requires { page.old.at + 22 ≤ length page.old.out.now }
    ensures writes { Writes (place_end p) page.old page.new }
    ensures within { page.new.at ≤ page.old.at + 22 }
{
    let Some(i) = p else {
        return page.byte(b'\n');
    };
    page.next(i);
    page.byte(b'\n');
}

#[tactic(auto, using(crate::proofs::Size::figures))]
pub fn refusal_line(page: &mut Page, r: Refusal)
    requires { page.old.at + 40 ≤ length page.old.out.now }
    ensures writes { Writes (refusal_line r) page.old page.new }
    ensures within { page.new.at ≤ page.old.at + 40 }
{
    page.word(b"refused ");
    page.number(refusal::number_of(r));
    place_end(page, refusal::place_of(r));
}

#[tactic(auto, unfolding(crate::specs::Lines::too_long))]
pub fn too_long_line(page: &mut Page)
    requires { Room page.old too_long }
    ensures { Writes too_long page.old page.new }
{
    page.word(b"refused input\n");
}
