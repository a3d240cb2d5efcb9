// The exact search with a budget.
ghost use Rattle.std.specs.Prelude.{◌≡◌, ◌<◌, ◌*◌, ◌-◌};
ghost use Rattle.lists.specs.Grow.{front};
ghost use Rattle.plane.specs.Said.{told};
ghost use Rattle.plane.specs.Sinks.{sinks_in};
ghost use Rattle.embedding.specs.Layouts.{SameLists};
ghost use Rattle.search.specs.Prepared.{PreparedFor, ProvidedFor, Tabled, Joins, FindsIn};
ghost use Rattle.search.specs.Searching.{joins_found, SearchesIn};

use crate::{kept, rooms};
use embedding::embed;
use embedding::layout::Layout;
use nearest::order;
use plane::refusal::Refusal;
use plane::sinks::Sinks;
use splits::fill;
use subsets::{square, subset};

// A tree: its total in half grid units, how many splits were examined, and whether no zero-skew tree is shorter.
#[derive(Clone, Copy)]
pub struct Found {
    pub total: u32,
    pub steps: u64,
    pub proven: bool,
}

// Writes the joins that the budget allows: of the kept splits, or by least diameter.
fn write_joins(sinks: &Sinks<'_>, budget: u64, ds: &[u32; 4096], table: &[u32], js: &mut [u16])
    requires { Tabled sinks.now.xs.now sinks.now.ys.now sinks.now.delays.now budget ds.now table.now js.old }
    ensures { js.new ≡ front (joins_found (sinks_in sinks.now) budget) js.old }
{
    let n = sinks.xs.len();
    if budget < subset::all_steps(n) {
        order::order_sound(sinks, js);
    } else {
        kept::write_kept(ds, table, n, js);
    }
}

// Fills the table and writes the joins, and returns how many splits were examined.
pub fn search_joins(sinks: &Sinks<'_>, budget: u64, table: &mut [u32], js: &mut [u16]) -> u64
    requires { PreparedFor sinks.now table.old js.old }
    ensures { Joins sinks.now.xs.now sinks.now.ys.now sinks.now.delays.now budget table.old js.old result table.new js.new }
{
    let n = sinks.xs.len();
    let mut ds = [0u32; 4096];
    square::diameters(square::square(sinks), &mut ds, n);
    let steps = fill::fill(&ds, table, n, budget);
    write_joins(sinks, budget, &ds, table, js);
    steps
}

// The search, where the sinks were checked and the buffers have room.
pub fn search_sound(
    sinks: &Sinks<'_>,
    budget: u64,
    table: &mut [u32],
    js: &mut [u16],
    layout: &mut Layout<'_>,
) -> Found
    requires { ProvidedFor sinks.now table.old js.old layout.old }
    ensures same { SameLists layout.old layout.new }
    ensures finds { FindsIn sinks.now budget table.old js.old layout.old result table.new js.new layout.new }
{
    let steps = search_joins(sinks, budget, table, js);
    let n = sinks.xs.len();
    let total = embed::embed_sound(sinks, &js[..2 * (n - 1)], layout);
    Found {
        total,
        steps,
        proven: subset::all_steps(n) <= budget,
    }
}

// Searches the sinks' shortest tree, examining at most `budget` splits: refusals 1 to 4, 15 and 7, else the total, with the work table, the joins, the places and the wires in the lent
// buffers. From F(n) splits on the tree is proven; below, it is that of joining by least diameter.
#[tactic(auto, using(crate::proofs::Finding::provided))]
pub fn search(
    sinks: &Sinks<'_>,
    budget: u64,
    table: &mut [u32],
    js: &mut [u16],
    layout: &mut Layout<'_>,
) -> Result<Found, Refusal>
    ensures same { SameLists layout.old layout.new }
    ensures permitted { SearchesIn sinks.now budget table.old js.old layout.old (told result) table.new js.new layout.new }
{
    rooms::check_search(sinks, table.len(), js.len(), layout)?;
    Ok(search_sound(sinks, budget, table, js, layout))
}
