// The kept splits as a tree, written as pairs of nodes.
ghost use Rattle.std.specs.Prelude.{◌≡◌, ◌<◌, ◌≤◌, ◌^◌, ◌-◌, ◌+◌, ◌*◌, length, set, take};
ghost use Rattle.std.specs.Int.Count.{ones};
ghost use Rattle.std.proofs.lemmas.List.Edits.{sets};
ghost use Rattle.lists.specs.Grow.{front};
ghost use Rattle.subsets.specs.Square.{held};
ghost use Rattle.subsets.specs.Kept.{kept_part, kept_order, pairs_of, node_of};

use splits::fill;
use subsets::subset::Parts;
use subsets::{square, subset};

// The part with the lowest sink, in the split of s that is kept.
fn kept(ds: &[u32; 4096], table: &[u32], s: u32) -> u32
    requires { (0 < s) × (s < 2 ^ 12) × (s < length table.now) }
    ensures { result ≡ kept_part (held ds.now) table.now s }
{
    let d = square::diameter(ds, s);
    let rest = subset::beyond(s);
    let goal = u64::from(table[s as usize]);
    for other in Parts::of(rest) {
        if fill::cost(table, d, s, other) == goal {
            return s - other;
        }
    }
    s - rest
}

// The node of a subset of n sinks, where `made` joins are made once it is joined.
fn node(s: u32, n: usize, made: usize) -> u16
    requires { (0 < s) × (0 < n) × (n ≤ 12) × (made ≤ 12) }
    ensures { result ≡ node_of n s made }
{
    if s.count_ones() < 2 {
        subset::first(s) as u16
    } else {
        (n + made - 1) as u16
    }
}

// Writes pair i.
fn put(out: &mut [u16], i: usize, x: u16, y: u16)
    requires { (i ≤ 12) × (2 * i + 1 < length out.old) }
    ensures { out.new ≡ set (set out.old (2 * i) x) (2 * i + 1) y }
{
    out[2 * i] = x;
    out[2 * i + 1] = y;
}

// Writes the joins of s as pairs, where `made` joins are made before, and returns how many are made then.
pub fn joins(
    ds: &[u32; 4096],
    table: &[u32],
    n: usize,
    s: u32,
    out: &mut [u16],
    made: usize,
) -> usize
    requires { (0 < n) × (n ≤ 12) × (0 < s) × (s < 2 ^ 12) × (s < length table.now) × (made + ones s ≤ 12) × (2 * (made + (ones s - 1)) ≤ length out.old) }
    ensures value { result ≡ made + (ones s - 1) }
    ensures out_after { out.new ≡ sets out.old (2 * made) (pairs_of n (kept_order (held ds.now) table.now s) made) }
{
    if s.count_ones() < 2 {
        return made;
    }
    let a = kept(ds, table, s);
    let b = s - a;
    let mid = joins(ds, table, n, a, out, made);
    let end = joins(ds, table, n, b, out, mid);
    put(out, end, node(a, n, mid), node(b, n, end));
    end + 1
}

// Writes the joins of all n sinks, by the table of their subsets.
pub fn write_kept(ds: &[u32; 4096], table: &[u32], n: usize, js: &mut [u16])
    requires { (0 < n) × (n ≤ 12) × (2 ^ n ≤ length table.now) × (2 * (n - 1) ≤ length js.old) }
    ensures { js.new ≡ front (pairs_of n (kept_order (held ds.now) (take (2 ^ n) table.now) (2 ^ n - 1)) 0) js.old }
{
    let all = subset::subsets(n);
    joins(ds, &table[..all as usize], n, all - 1, js, 0);
}
