// The table by blocks of eight subsets, where all steps are taken: splits that part the high sinks come from rows of lanes, the others one by one.
ghost use Rattle.std.specs.Prelude.{◌≡◌, ◌<◌, ◌≤◌, ◌^◌, ◌-◌, ◌+◌, ◌*◌, length, get_or};
ghost use mathlib.Core.List.{foldl, map};
ghost use Rattle.std.specs.Int.Count.{ones};
ghost use Rattle.subsets.specs.Subsets.{rising, splits};
ghost use Rattle.subsets.specs.Table.{step_of, steps_of, pair_up};
ghost use Rattle.subsets.specs.Square.{held};
ghost use Rattle.lanes.specs.Blocks.{begins, counts, least_with, parts_to, split_off_lane, Within, Modest, Begun, Opened, Next};

use crate::lanes;
use subsets::{square, subset};

// Where the lanes that deal the low sinks of each number begin and end.
const GROUPS: [(usize, usize); 8] = [
    (26, 27),
    (20, 22),
    (22, 24),
    (8, 12),
    (24, 26),
    (12, 16),
    (16, 20),
    (0, 8),
];

// Takes all steps of the subset of the high set h and the low sinks `low`.
fn fill_low(ds: &[u32; 4096], table: &mut [u32], sums: &[u32; 28], h: u32, low: u32)
    requires { Next ds.now table.old sums.now h low × (low < 8) × (2 ≤ ones (8 * h + low)) }
    ensures next { Next ds.now table.new sums.now h (low + 1) }
    ensures table_after { table.new ≡ foldl (step_of (held ds.now)) table.old (map (pair_up (8 * h + low)) (splits (8 * h + low))) }
{
    let s = 8 * h + low;
    let (from, end) = GROUPS[low as usize];
    let least = lanes::least_low(table, s, low, lanes::least_lane(sums, from, end));
    table[s as usize] = square::diameter(ds, s) + least;
}

// Takes all steps of the subsets of the high set h and one low sink or more. One by one, for the compiler then knows each group: with `for low in 1..8` the search of 12 sinks takes 39 per cent longer.
fn fill_lows(ds: &[u32; 4096], table: &mut [u32], sums: &[u32; 28], h: u32)
    requires { Next ds.now table.old sums.now h 1 }
    ensures { table.new ≡ foldl (step_of (held ds.now)) table.old (steps_of (rising 7 (8 * h + 1))) }
{
    fill_low(ds, table, sums, h, 1);
    fill_low(ds, table, sums, h, 2);
    fill_low(ds, table, sums, h, 3);
    fill_low(ds, table, sums, h, 4);
    fill_low(ds, table, sums, h, 5);
    fill_low(ds, table, sums, h, 6);
    fill_low(ds, table, sums, h, 7);
}

// Takes all steps of the block of the high set h. A single sink has none.
fn fill_block(ds: &[u32; 4096], table: &mut [u32], rows: &[u32], h: u32)
    requires { Opened ds.now table.old rows.now h }
    ensures { table.new ≡ foldl (step_of (held ds.now)) table.old (steps_of (rising 8 (8 * h))) }
{
    let mut sums = [u32::MAX; 28];
    lanes::lane_sums(rows, h, &mut sums);
    if subset::beyond(h) != 0 {
        fill_low(ds, table, &sums, h, 0);
    }
    fill_lows(ds, table, &sums, h);
}

// Takes all steps of the blocks of n sinks but the first.
fn fill_blocks(ds: &[u32; 4096], table: &mut [u32], rows: &mut [u32], n: usize)
    requires { Begun n ds.now table.old × (7 * 2 ^ n ≤ length rows.old) × Modest rows.old }
    ensures { table.new ≡ foldl (step_of (held ds.now)) table.old (steps_of (rising (2 ^ n - 8) 8)) }
{
    let size = subset::subsets(n - 3);
    for h in 1..size {
        fill_block(ds, table, rows, h);
        lanes::put_rows(table, rows, h);
    }
}

// The same, with room for so many numbers in the rows. They are cleared before they are filled in, so a caller asks for no more than n sinks need.
fn fill_with<const ROWS: usize>(ds: &[u32; 4096], table: &mut [u32], n: usize)
    requires { Begun n ds.now table.old × (7 * 2 ^ n ≤ ROWS) × (ROWS ≤ 28672) }
    ensures { table.new ≡ foldl (step_of (held ds.now)) table.old (steps_of (rising (2 ^ n - 8) 8)) }
{
    let mut rows = [0u32; ROWS];
    fill_blocks(ds, table, &mut rows, n);
}

// Takes all steps of the subsets from 8 on.
pub fn fill_rest(ds: &[u32; 4096], table: &mut [u32], n: usize)
    requires { Begun n ds.now table.old }
    ensures { table.new ≡ foldl (step_of (held ds.now)) table.old (steps_of (rising (2 ^ n - 8) 8)) }
{
    if n <= 8 {
        fill_with::<1792>(ds, table, n);
    } else if n <= 10 {
        fill_with::<7168>(ds, table, n);
    } else {
        fill_with::<28672>(ds, table, n);
    }
}
