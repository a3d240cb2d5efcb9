// What a call says, as six numbers: the refusal's number (0: accepted), whether it has a place, the place, a value, the steps, and whether proven.
ghost use Rattle.std.specs.Prelude.{◌≡◌, List, ℕ};
ghost use Rattle.plane.specs.Said.{refused_by};
ghost use Rattle.plane.specs.Said.Said.{answered};
ghost use Rattle.skeprafter_c.specs.Words.{words, no_value, one_value_word, found_values, refusal_words, answer_words};

use skeprafter::{Found, Refusal};

// What an accepted call answers with: its values are the last three of the six numbers.
pub trait Values {
    ghost values: { Self → List ℕ };

    fn accepted(self) -> [u64; 6]
        ensures { result ≡ words values (answered self) };
}

impl Values for () {
    ghost values = { no_value };

    fn accepted(self) -> [u64; 6] {
        [0, 0, 0, 0, 0, 0]
    }
}

// A total.
impl Values for u32 {
    ghost values = { one_value_word };

    fn accepted(self) -> [u64; 6] {
        [0, 0, 0, u64::from(self), 0, 0]
    }
}

// How many bytes, or how many sinks.
impl Values for usize {
    ghost values = { one_value_word };

    fn accepted(self) -> [u64; 6] {
        [0, 0, 0, self as u64, 0, 0]
    }
}

impl Values for Found {
    ghost values = { found_values };

    fn accepted(self) -> [u64; 6] {
        [
            0,
            0,
            0,
            u64::from(self.total),
            self.steps,
            u64::from(self.proven),
        ]
    }
}

pub fn of_refusal(r: Refusal) -> [u64; 6]
    ensures { result ≡ refusal_words r }
{
    let n = u64::from(skeprafter::number_of(r));
    match skeprafter::place_of(r) {
        None => [n, 0, 0, 0, 0, 0],
        Some(i) => [n, 1, i as u64, 0, 0, 0],
    }
}

pub fn of_answer<T: Values>(answer: Result<T, Refusal>) -> [u64; 6]
    ensures { result ≡ answer_words T.values answer }
{
    match answer {
        Ok(value) => value.accepted(),
        Err(r) => of_refusal(r),
    }
}
