// Joined files: tags 1 to 3.
ghost use Rattle.std.specs.Prelude.{◌≡◌, ◌+◌, ◌-◌, ◌*◌, ◌≤◌, ◌<◌, Ok, length};
ghost use Rattle.plane.specs.Said.{told};
ghost use Rattle.plane.specs.Sinks.{prompt};
ghost use Rattle.orders.specs.Joins.{check_joins, check_order};
ghost use Rattle.orders.specs.Sound.{Sound};
ghost use Rattle.fields.specs.Fields.{firsts, seconds, numbers_in};
ghost use Rattle.fields.specs.Form.{Formed};
ghost use Rattle.text.specs.Written.{Room, Writes as Puts};
ghost use Rattle.house.specs.Files.{joined_file};
ghost use Rattle.house.specs.Writing.{Writes};
ghost use Rattle.house.specs.Reading.{check_joined_file, xs_in, ys_in, joins_in, ReadsJoins};

use crate::room::room;
use crate::sink_file;
use fields::tag::Tag;
use fields::{field, record};
use orders::{check, joins};
use plane::refusal::Refusal;
use text::page::Page;

// The file of checked sinks and joins.
pub fn put_joined(page: &mut Page, xs: &[i32], ys: &[i32], js: &[u16])
    requires { Sound xs.now ys.now (prompt xs.now) js.now × Room page.old (joined_file xs.now ys.now js.now) }
    ensures { Puts (joined_file xs.now ys.now js.now) page.old page.new }
{
    sink_file::put_sinks(page, xs, ys);
    record::put_numbers(page, Tag::Joins, js);
}

// Refusals 1 to 4, 6 and 7, else the joined file in the lent buffer, and its bytes.
pub fn write_joined(xs: &[i32], ys: &[i32], js: &[u16], out: &mut [u8]) -> Result<usize, Refusal>
    ensures { Writes (check_order xs.now ys.now (prompt xs.now) js.now) (joined_file xs.now ys.now js.now) out.old (told result) out.new }
{
    check::check_prompt(xs, ys, js)?;
    room(6 + 12 * xs.len(), out.len())?;
    let mut page = Page::new(out);
    put_joined(&mut page, xs, ys, js);
    Ok(page.len())
}

// Refusal 6, of the pairs in a value, for n sinks.
#[tactic(auto, using(lists::proofs::Front::front_part))]
fn check_pairs(v: &[u8], n: usize) -> Result<(), Refusal>
    requires { (0 < n) × (n ≤ 512) }
    ensures { result ≡ check_joins n (numbers_in 2 v.now) }
{
    let m = record::count::<u16>(v);
    if 1022 < m {
        return Err(Refusal::Joins(n - 1));
    }
    let mut js = [0u16; 1022];
    record::get_nodes(v, &mut js);
    joins::check_joins(&js[..m], n)
}

// Refusals 2 to 4 and 6, of the values of tags 2 and 3.
#[tactic(auto, using(plane::proofs::Checks::accepted), unfolding(orders::specs::Joins::check_order))]
pub fn check_values(v2: &[u8], v3: &[u8]) -> Result<(), Refusal>
    ensures { result ≡ check_order (firsts v2.now) (seconds v2.now) (prompt (firsts v2.now)) (numbers_in 2 v3.now) }
{
    sink_file::check_places(v2)?;
    check_pairs(v3, record::count_places(v2))
}

// Refusals 8, 2 to 4 and 6.
#[tactic(auto, using(fields::proofs::Standing::formed), unfolding(crate::specs::Reading::check_joined_file))]
fn check_joined_file(file: &[u8]) -> Result<(), Refusal>
    ensures { result ≡ check_joined_file file.now }
{
    field::check_form(file, Tag::Joins)?;
    check_values(
        field::value(file, Tag::Sinks),
        field::value(file, Tag::Joins),
    )
}

// Refusal 7, else the sinks and the joins of a file that was checked, and how many sinks there are.
#[tactic(auto, using(fields::proofs::Scan::formed_less, crate::proofs::JoinsAnswers::joins_read))]
pub fn take_joins(
    file: &[u8],
    xs: &mut [i32],
    ys: &mut [i32],
    js: &mut [u16],
) -> Result<usize, Refusal>
    requires { Formed 3 file.now }
    ensures { ReadsJoins (Ok tt) (xs_in file.now) (ys_in file.now) (joins_in file.now) xs.old ys.old js.old (told result) xs.new ys.new js.new }
{
    let v = field::value(file, Tag::Joins);
    room(record::count::<u16>(v), js.len())?;
    let n = sink_file::take_sinks(file, xs, ys)?;
    record::get_nodes(v, js);
    Ok(n)
}

// Refusals 8, 2 to 4, 6 and 7, else the number of sinks, with their coordinates and the pairs in the lent buffers.
#[tactic(auto, using(fields::proofs::Standing::formed, plane::proofs::Checks::both_pass), unfolding(crate::specs::Reading::check_joined_file))]
pub fn read_joined(
    file: &[u8],
    xs: &mut [i32],
    ys: &mut [i32],
    js: &mut [u16],
) -> Result<usize, Refusal>
    ensures { ReadsJoins (check_joined_file file.now) (xs_in file.now) (ys_in file.now) (joins_in file.now) xs.old ys.old js.old (told result) xs.new ys.new js.new }
{
    check_joined_file(file)?;
    take_joins(file, xs, ys, js)
}
