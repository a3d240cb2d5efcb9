// The check of a joining order: refusal 6.
ghost use Rattle.std.specs.Prelude.{◌≡◌, ◌||◌, ◌-◌, ◌*◌, ◌≤◌, ◌<◌, eqb, leb, length};
ghost use Rattle.orders.specs.Joins.{bad_at, check_joins};

use plane::refusal::Refusal;

// Whether a pair that makes node top names a node twice, or one that is not lower.
fn is_unlike(a: usize, b: usize, top: usize) -> bool
    ensures { result ≡ (eqb a b || (leb top a || leb top b)) }
{
    a == b || top <= a || top <= b
}

// The first bad pair, by a flag for each node that was named.
fn first_bad(js: &[u16], n: usize) -> Option<usize>
    requires { (0 < n) × (n ≤ 512) × (length js.now ≡ 2 * (n - 1)) }
    ensures { result ≡ bad_at n js.now }
{
    let mut named = [false; 1023];
    for (i, [a, b]) in js.as_chunks::<2>().0.iter().enumerate() {
        let a = usize::from(*a);
        let b = usize::from(*b);
        if is_unlike(a, b, n + i) || named[a] || named[b] {
            return Some(i);
        }
        named[a] = true;
        named[b] = true;
    }
    None
}

// Refusal 6, of the pairs of n sinks.
#[tactic(auto, unfolding(crate::specs::Joins::check_joins))]
pub fn check_joins(js: &[u16], n: usize) -> Result<(), Refusal>
    requires { (0 < n) × (n ≤ 512) }
    ensures { result ≡ check_joins n js.now }
{
    let last = n - 1;
    if js.len() != 2 * last {
        return Err(Refusal::Joins(last.min(js.len() / 2)));
    }
    if let Some(i) = first_bad(js, n) {
        return Err(Refusal::Joins(i));
    }
    Ok(())
}
