// The work table: the splits of the subsets in order, one step each, as far as the budget goes.
ghost use Rattle.std.specs.Prelude.{◌≡◌, ◌<◌, ◌≤◌, ◌^◌, ◌-◌, ◌+◌, min, length, take, get_or};
ghost use mathlib.Core.List.{foldl, map};
ghost use Rattle.lists.specs.Grow.{front};
ghost use Rattle.subsets.specs.Subsets.{splits, lowest};
ghost use Rattle.subsets.specs.Best.{step_count, least_of};
ghost use Rattle.subsets.specs.Table.{step_of, steps, pair_up, better_at, blanks, table_after};
ghost use Rattle.subsets.specs.Square.{held};
ghost use Rattle.lanes.specs.Blocks.{Short};
ghost use Rattle.lanes.specs.Sums.{Leading, apart, sums, three_of};

use lanes::blocks;
use subsets::subset::Parts;
use subsets::{square, subset};

// What the two parts of a split of s come to: `other`, and the part that holds the lowest sink.
fn parts(table: &[u32], s: u32, other: u32) -> u64
    requires { (other ≤ s) × (s < length table.now) }
    ensures { (result < 2 ^ 33) × (result ≡ apart table.now s other) }
{
    u64::from(table[(s - other) as usize]) + u64::from(table[other as usize])
}

// What the split of s into `other` and the part that holds the lowest sink comes to.
pub fn cost(table: &[u32], d: u32, s: u32, other: u32) -> u64
    requires { (0 < other) × (other ≤ s) × (s < length table.now) }
    ensures { result ≡ d + get_or table.now (s - other) 0 + get_or table.now other 0 }
{
    u64::from(d) + parts(table, s, other)
}

// The least that three splits of s come to: those of `other` with both its second and third sink, with the third, and with the second.
fn three(table: &[u32], s: u32, other: u32, second: u32, third: u32) -> u64
    requires { (other + third + second ≤ s) × (s < length table.now) }
    ensures { (result < 2 ^ 33) × (result ≡ three_of table.now s other second third) }
{
    parts(table, s, other + third + second)
        .min(parts(table, s, other + third))
        .min(parts(table, s, other + second))
}

// The least that the splits of s come to without its diameter, where `last` is s without its first three sinks. They are met four by four, so that the turn to the next part of `last` is paid
// once for four: with the second and third sink, with either, and with neither.
fn least_of_fours(table: &[u32], s: u32, second: u32, third: u32, last: u32) -> u64
    requires { (0 < s) × Leading s second third last × (s < length table.now) }
    ensures { (result < 2 ^ 33) × (result ≡ least_of (sums table.now s) (splits s)) }
{
    let mut least = three(table, s, 0, second, third);
    for other in Parts::of(last) {
        let with = three(table, s, other, second, third);
        least = least.min(with.min(parts(table, s, other)));
    }
    least
}

// The same for a subset of two or more, where `rest` is s without its lowest sink.
fn least_parts(table: &[u32], s: u32, rest: u32) -> u64
    requires { (0 < s) × (rest ≡ s - 2 ^ lowest s) × (0 < rest) × (s < length table.now) }
    ensures { (result < 2 ^ 33) × (result ≡ least_of (sums table.now s) (splits s)) }
{
    let more = subset::beyond(rest);
    if more == 0 {
        return parts(table, s, rest);
    }
    let last = subset::beyond(more);
    least_of_fours(table, s, rest - more, more - last, last)
}

// Examines all splits of s, where d is its diameter.
fn examine_all(table: &[u32], d: u32, s: u32) -> u32
    requires { (0 < s) × (s < length table.now) }
    ensures { result ≡ foldl (better_at d table.now s) (get_or table.now s 0) (splits s) }
{
    let best = table[s as usize];
    let rest = subset::beyond(s);
    if rest == 0 {
        return best;
    }
    let sum = u64::from(d) + least_parts(table, s, rest);
    sum.min(u64::from(best)) as u32
}

// The least that examined splits come to, and what is left of a budget.
#[derive(Clone, Copy)]
pub struct Examined {
    pub least: u32,
    pub left: u64,
}

// Examines the splits of s, at most `budget` of them, where d is its diameter. They are met by the part without the lowest sink, in falling order.
fn examine_some(table: &[u32], d: u32, s: u32, budget: u64) -> Examined
    requires { (0 < s) × (s < 2 ^ 12) × (s < length table.now) }
    ensures { (result.left ≡ budget - length (splits s)) × (result.least ≡ foldl (better_at d table.now s) (get_or table.now s 0) (take budget (splits s))) }
{
    let mut left = budget;
    let mut best = table[s as usize];
    for other in Parts::of(subset::beyond(s)) {
        if left == 0 {
            break;
        }
        let sum = cost(table, d, s, other);
        best = sum.min(u64::from(best)) as u32;
        left -= 1;
    }
    Examined { least: best, left }
}

// The same, at once where the budget goes to the end.
fn examine(table: &[u32], d: u32, s: u32, budget: u64) -> Examined
    requires { (0 < s) × (s < 2 ^ 12) × (s < length table.now) }
    ensures { (result.left ≡ budget - length (splits s)) × (result.least ≡ foldl (better_at d table.now s) (get_or table.now s 0) (take budget (splits s))) }
{
    let all = subset::split_count(s);
    if budget < all {
        return examine_some(table, d, s, budget);
    }
    Examined {
        least: examine_all(table, d, s),
        left: budget - all,
    }
}

// Takes the steps of s, at most `budget` of them, and returns what is left of the budget.
fn fill_subset(ds: &[u32; 4096], table: &mut [u32], s: u32, budget: u64) -> u64
    requires { (0 < s) × (s < 2 ^ 12) × (s < length table.old) }
    ensures value { result ≡ budget - length (splits s) }
    ensures table_after { table.new ≡ foldl (step_of (held ds.now)) table.old (map (pair_up s) (take budget (splits s))) }
{
    let found = examine(table, square::diameter(ds, s), s, budget);
    table[s as usize] = found.least;
    found.left
}

// Puts 0 at the empty set and the single sinks, and the largest number at every other subset of n sinks.
fn clear(table: &mut [u32], n: usize)
    requires { (n ≤ 12) × (2 ^ n ≤ length table.old) }
    ensures { table.new ≡ front (blanks n) table.old }
{
    // Over the numbers in place of the part, the compiler takes one at a time, and the search of 12 sinks takes 6 per cent longer.
    let blanks = &mut table[..subset::subsets(n) as usize];
    for (s, best) in blanks.iter_mut().enumerate() {
        *best = subset::blank(s as u32);
    }
}

// Takes at most `budget` steps, the subsets of n sinks in rising order, and returns how many.
fn fill_some(ds: &[u32; 4096], table: &mut [u32], n: usize, budget: u64) -> u64
    requires { (n ≤ 12) × (2 ^ n ≤ length table.old) }
    ensures value { result ≡ min budget (step_count n) }
    ensures table_after { table.new ≡ foldl (step_of (held ds.now)) table.old (take budget (steps n)) }
{
    let size = subset::subsets(n);
    let mut left = budget;
    for s in 1..size {
        left = fill_subset(ds, table, s, left);
    }
    budget - left
}

// Takes at most `budget` steps on a blank table of the subsets of n sinks, where ds are their diameters, and returns how many.
pub fn fill(ds: &[u32; 4096], table: &mut [u32], n: usize, budget: u64) -> u64
    requires { (n ≤ 12) × (2 ^ n ≤ length table.old) × Short n ds.now }
    ensures value { result ≡ min budget (step_count n) }
    ensures table_after { table.new ≡ front (table_after (held ds.now) n budget) table.old }
{
    clear(table, n);
    let all = subset::all_steps(n);
    if n <= 3 || budget < all {
        return fill_some(ds, table, n, budget);
    }
    fill_some(ds, table, 3, subset::all_steps(3));
    blocks::fill_rest(ds, table, n);
    all
}
