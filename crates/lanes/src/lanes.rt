// Rows of lanes: for each high set, what the table says of the first part and of the second in each of the 27 ways to deal the three lowest sinks. A split of a high set is then one sum of two rows, and many
// lanes at a time can be looked at. A row has one lane more that nobody looks at.
ghost use Rattle.std.specs.Prelude.{◌≡◌, ◌<◌, ◌≤◌, ◌^◌, ◌-◌, ◌+◌, ◌*◌, length, get_or, map, min};
ghost use Rattle.subsets.specs.Subsets.{rising};
ghost use Rattle.lanes.specs.Blocks.{in_rows, least_with, parts_to, split_off_lane, Modest, Within, Meets, Summed, Deals};

use subsets::subset;
use subsets::subset::Parts;

// The smaller of two sums. (A function of its own, so that a wrong one can be planted in one place: must-fail/first_split_only.)
fn smaller(x: u32, y: u32) -> u32
    ensures { result ≡ min x y }
{
    x.min(y)
}

// One turn: in each lane, the row at a for the first part and the row at b for the second.
fn meet(rows: &[u32], a: usize, b: usize, sums: &mut [u32; 28])
    requires { (a + 28 ≤ length rows.now) × (b + 28 ≤ length rows.now) × Modest rows.now }
    ensures { Meets rows.now a b sums.old sums.new }
{
    for (k, sum) in sums.iter_mut().enumerate() {
        let met = rows[a + k] + rows[b + k];
        *sum = smaller(*sum, met);
    }
}

// All turns of the high set h.
pub fn lane_sums(rows: &[u32], h: u32, sums: &mut [u32; 28])
    requires { (0 < h) × (56 * h ≤ length rows.now) × Modest rows.now }
    ensures { Summed rows.now h sums.old sums.new }
{
    for other in Parts::of(subset::beyond(h)) {
        meet(
            rows,
            56 * (h - other) as usize,
            56 * other as usize + 28,
            sums,
        );
    }
}

// The least of the lanes from one place to another.
pub fn least_lane(sums: &[u32; 28], from: usize, end: usize) -> u32
    requires { (from ≤ end) × (end ≤ 28) }
    ensures { result ≡ least_with (λ k. get_or sums.now k 0) 4294967295 (rising (end - from) from) }
{
    let mut least = u32::MAX;
    for k in from..end {
        least = smaller(least, sums[k]);
    }
    least
}

// The least of v and of the splits of s into some of its low sinks and the rest.
pub fn least_low(table: &[u32], s: u32, low: u32, v: u32) -> u32
    requires { (low < 8) × (8 ≤ s) × (s < length table.now) × (s < 2 ^ 12) × Within s table.now }
    ensures { result ≡ least_with (split_off_lane table.now s) v (parts_to low low) }
{
    let mut least = v;
    for part in Parts::of(low) {
        let met = table[(s - part) as usize] + table[part as usize];
        least = smaller(least, met);
    }
    least
}

// The two rows of a block: in each lane the entry of the first part, then in each lane that of the second. An entry has the names of its low sinks, and o is that of none. Written out, for a loop over a table of constants is slower (docs/BENCHMARKS.md).
fn rows_of(block: &[u32; 8]) -> [u32; 56]
    ensures { result ≡ map (λ l. get_or block.now l 0) in_rows }
{
    let [o, a, b, ab, c, ac, bc, abc] = *block;
    [
        o, a, b, ab, c, ac, bc, abc, o, a, b, ab, o, a, c, ac, o, b, c, bc, o, a, o, b, o, c, o, o,
        abc, bc, ac, c, ab, b, a, o, ab, b, a, o, ac, c, a, o, bc, c, b, o, a, o, b, o, c, o, o, o,
    ]
}

// The two rows of the high set h, from its block.
pub fn put_rows(table: &[u32], rows: &mut [u32], h: u32)
    requires { (8 * h + 8 ≤ length table.now) × (56 * h + 56 ≤ length rows.old) }
    ensures { Deals table.now h rows.old rows.new }
{
    let from = 56 * h as usize;
    let block = &table.as_chunks::<8>().0[h as usize];
    rows[from..from + 56].copy_from_slice(&rows_of(block));
}
