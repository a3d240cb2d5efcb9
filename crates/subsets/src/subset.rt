// A subset of the sinks is a number whose bit i stands for sink i. It and the number of sinks are plain numbers, with their bound in each contract: a type for them would be taken apart at each step of the arithmetic.
ghost use Rattle.std.specs.Prelude.{◌≡◌, ◌<◌, ◌≤◌, ◌^◌, ◌-◌, MatchOption, bit_and, length};
ghost use Rattle.std.specs.Iterator.{at_most};
ghost use Rattle.subsets.specs.Subsets.{lowest, splits};
ghost use Rattle.subsets.specs.Best.{step_count};
ghost use Rattle.subsets.specs.Table.{blank_of};

// The lowest sink of s.
pub fn first(s: u32) -> u32
    requires { 0 < s }
    ensures { result ≡ lowest s }
{
    s.trailing_zeros()
}

// The subset s without its lowest sink. With `first(s)` in place of the method the compiler makes shifts of it, and the table of 12 sinks takes 6 per cent longer split by split.
pub fn beyond(s: u32) -> u32
    requires { 0 < s }
    ensures { result ≡ s - 2 ^ lowest s }
{
    s - (1u32 << s.trailing_zeros())
}

// The parts of a subset but the empty one, in falling order: `next` comes next.
#[derive(Clone, Copy)]
pub struct Parts {
    pub whole: u32,
    pub next: u32,
}

impl Parts {
    // All parts of a subset.
    pub fn of(whole: u32) -> Parts
        ensures { (result.whole ≡ whole) × (result.next ≡ whole) }
    {
        Parts { whole, next: whole }
    }
}

impl Iterator for Parts {
    type Item = u32;

    ghost next_gives = { λ s r t. MatchOption r (s.next ≡ 0) (λ x. (0 < s.next) × (x ≡ s.next) × (t.whole ≡ s.whole) × (t.next ≡ bit_and (s.next - 1) s.whole)) };

    ghost remaining = { λ s. at_most s.next };

    fn next(&mut self) -> Option<u32> {
        if self.next == 0 {
            return None;
        }
        let part = self.next;
        self.next = (part - 1) & self.whole;
        Some(part)
    }
}

// How many subsets n sinks have.
pub fn subsets(n: usize) -> u32
    requires { n ≤ 12 }
    ensures { (result ≡ 2 ^ n) × (0 < result) × (result ≤ 4096) }
{
    1u32 << n
}

// How many splits s has.
pub fn split_count(s: u32) -> u64
    requires { (0 < s) × (s < 2 ^ 12) }
    ensures { result ≡ length (splits s) }
{
    (1u64 << (s.count_ones() - 1)) - 1
}

// What a subset holds before any of its splits is examined.
pub fn blank(s: u32) -> u32
    ensures { result ≡ blank_of s }
{
    if s.count_ones() < 2 { 0 } else { u32::MAX }
}

const COUNTS: [u64; 13] = [
    0, 0, 1, 6, 25, 90, 301, 966, 3025, 9330, 28501, 86526, 261625,
];

// How many splits all subsets of n sinks have.
pub fn all_steps(n: usize) -> u64
    requires { n ≤ 12 }
    ensures { result ≡ step_count n }
{
    COUNTS[n]
}
