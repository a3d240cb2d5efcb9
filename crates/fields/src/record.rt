// Records in the value of a field: places (tags 2 and 4), node numbers (tag 3) and wires (tag 5), read and written.
ghost use Rattle.std.specs.Prelude.{◌≡◌, ◌++◌, ◌+◌, ◌*◌, ◌/◌, ◌≤◌, ◌<◌, map, length};
ghost use Rattle.lists.specs.Grow.{front, tab};
ghost use Rattle.fields.specs.Bytes.{number_at};
ghost use Rattle.fields.specs.Tags.{tag_number};
ghost use Rattle.fields.specs.Fields.{field, places, numbers, firsts, seconds, numbers_in};
ghost use Rattle.text.specs.Written.{Room, Writes};

use crate::field;
use crate::number::Number;
use crate::tag::Tag;
use text::page::Page;

// Two lists beside each other: so the C interface hands the coordinates over (`skeprafter_write_sinks`).
fn put_each_place(page: &mut Page, xs: &[i32], ys: &[i32])
    requires { Room page.old (places xs.now ys.now) × (length xs.now ≡ length ys.now) }
    ensures { Writes (places xs.now ys.now) page.old page.new }
{
    for (i, x) in xs.iter().enumerate() {
        x.put(page);
        ys[i].put(page);
    }
}

// A field of places.
pub fn put_places(page: &mut Page, tag: Tag, xs: &[i32], ys: &[i32])
    requires { Room page.old (field (tag_number tag) (places xs.now ys.now)) × (length xs.now ≡ length ys.now) × (length xs.now ≤ 1023) }
    ensures { Writes (field (tag_number tag) (places xs.now ys.now)) page.old page.new }
{
    field::put_header(page, tag, (8 * xs.len()) as u16);
    put_each_place(page, xs, ys);
}

fn put_each<T: Number>(page: &mut Page, ns: &[T])
    requires { Room page.old (numbers T.SIZE (map T.whole ns.now)) }
    ensures { Writes (numbers T.SIZE (map T.whole ns.now)) page.old page.new }
{
    for n in ns {
        n.put(page);
    }
}

// A field of numbers.
pub fn put_numbers<T: Number>(page: &mut Page, tag: Tag, ns: &[T])
    requires { Room page.old (field (tag_number tag) (numbers T.SIZE (map T.whole ns.now))) × (T.SIZE * length ns.now < 65536) }
    ensures { Writes (field (tag_number tag) (numbers T.SIZE (map T.whole ns.now))) page.old page.new }
{
    field::put_header(page, tag, (T::SIZE * ns.len()) as u16);
    put_each(page, ns);
}

// Of each record of so many bytes, the number that begins at its byte `from`.
pub fn get_each<T: Number>(v: &[u8], size: usize, from: usize, ns: &mut [T])
    requires { (0 < size) × (from + T.SIZE ≤ size) × (length v.now / size ≤ length ns.old) }
    ensures { ns.new ≡ front (tab (λ i. T.made (number_at T.SIZE v.now (size * i + from))) (length v.now / size)) ns.old }
{
    for i in 0..v.len() / size {
        ns[i] = T::read(v, size * i + from);
    }
}

// How many places stand in a value.
#[tactic(auto, using(crate::proofs::Values::length_firsts))]
pub fn count_places(v: &[u8]) -> usize
    ensures { result ≡ length (firsts v.now) }
{
    v.len() / 8
}

#[tactic(auto, using(crate::proofs::Values::length_firsts), unfolding(crate::specs::Fields::seconds))]
pub fn get_places(v: &[u8], xs: &mut [i32], ys: &mut [i32])
    requires { (length (firsts v.now) ≤ length xs.old) × (length (firsts v.now) ≤ length ys.old) }
    ensures xs_after { xs.new ≡ front (firsts v.now) xs.old }
    ensures ys_after { ys.new ≡ front (seconds v.now) ys.old }
{
    get_each(v, 8, 0, xs);
    get_each(v, 8, 4, ys);
}

// How many numbers stand in a value.
#[tactic(auto, using(crate::proofs::Values::length_numbers_in))]
pub fn count<T: Number>(v: &[u8]) -> usize
    ensures { result ≡ length (numbers_in T.SIZE v.now) }
{
    v.len() / T::SIZE
}

#[tactic(auto, using(crate::proofs::Values::length_numbers_in))]
pub fn get_nodes(v: &[u8], ns: &mut [u16])
    requires { length (numbers_in 2 v.now) ≤ length ns.old }
    ensures { ns.new ≡ front (numbers_in 2 v.now) ns.old }
{
    get_each(v, 2, 0, ns)
}
