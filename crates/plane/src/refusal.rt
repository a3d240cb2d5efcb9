// Why a call is refused.
ghost use Rattle.std.specs.Prelude.{◌≡◌};
ghost use Rattle.plane.specs.Refusals.{number, place};

// The refusals of document 01, in its order. Number 5 is withdrawn: no refusal has it.
#[derive(Clone, Copy, Debug, PartialEq, Eq)]
pub enum Refusal {
    // 1: the lists of x, y and delays differ in length.
    Lists,
    // 2: no sink.
    NoSink,
    // 3: too many sinks.
    TooMany,
    // 4: the lowest sink with a coordinate outside its range.
    Outside(usize),
    // 6: the joining order is wrong: the smaller count of pairs, or the first bad pair.
    Joins(usize),
    // 7: a lent buffer is too short.
    Room,
    // 8: the file is not of the form, at this byte.
    Form(usize),
    // 9: tag 4 or 5 has a wrong count.
    Tags,
    // 9: the lowest node of which tag 4 or 5 is not what embedding gives.
    Unlike(usize),
    // 15: the lowest sink with a delay out of range.
    Late(usize),
}

// Document 01's number of a refusal.
pub fn number_of(r: Refusal) -> u32
    ensures { result ≡ number r }
{
    match r {
        Refusal::Lists => 1,
        Refusal::NoSink => 2,
        Refusal::TooMany => 3,
        Refusal::Outside(_) => 4,
        Refusal::Joins(_) => 6,
        Refusal::Room => 7,
        Refusal::Form(_) => 8,
        Refusal::Tags => 9,
        Refusal::Unlike(_) => 9,
        Refusal::Late(_) => 15,
    }
}

// Document 01's place of a refusal: none, or a number, of which 0 is one.
pub fn place_of(r: Refusal) -> Option<usize>
    ensures { result ≡ place r }
{
    match r {
        Refusal::Lists => None,
        Refusal::NoSink => None,
        Refusal::TooMany => None,
        Refusal::Outside(i) => Some(i),
        Refusal::Joins(i) => Some(i),
        Refusal::Room => None,
        Refusal::Form(i) => Some(i),
        Refusal::Tags => None,
        Refusal::Unlike(i) => Some(i),
        Refusal::Late(i) => Some(i),
    }
}
