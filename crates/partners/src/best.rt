// The pair to join: of the live nodes the first whose union has the least diameter, from what is kept beside each.
ghost use Rattle.std.specs.Prelude.{◌≡◌, ◌<◌, length};
ghost use Rattle.partners.specs.Closest.{best};
ghost use Rattle.partners.specs.Boxes.{reach};
ghost use Rattle.partners.specs.Rows.{pair_at, Caching, Picks};

use crate::pair::Pair;
use crate::rows::Rows;
use crate::{live, lowest};
use measures::boxes::Box;

// A row, and where its partner stands among the live nodes.
#[derive(Clone, Copy)]
pub struct Choice {
    pub row: usize,
    pub with: usize,
}

// The leaf: the places of the best pair of live nodes, which come in rising order. A row whose partner is gone is looked through again only where it comes first:
// what it keeps is nearer than what is left, so no other pair is passed over. The boxes by node number are not read: they are what the promise speaks of.
pub fn nearest(live: &[usize], bs: &[Box], rows: &mut Rows) -> Choice
    requires { Caching bs.now live.now rows.old }
    ensures { (pair_at live.now result ≡ best (reach bs.now) live.now) × Picks bs.now live.now rows.old result rows.new }
{
    'rows: loop {
        let row = lowest::lowest(rows, live.len() - 1);
        if let Some(with) = live::place(live, rows.partner[row] as usize) {
            return Choice { row, with };
        }
        let q = lowest::partner(rows, live, row);
        rows.give(row, q);
    }
}

// The two nodes at their places.
pub fn pair_at(live: &[usize], c: Choice) -> Pair
    requires { (c.row < length live.now) × (c.with < length live.now) }
    ensures { result ≡ pair_at live.now c }
{
    let s = c.row;
    let t = c.with;
    Pair {
        low: live[s],
        high: live[t],
    }
}
