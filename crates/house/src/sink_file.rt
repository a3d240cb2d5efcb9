// Sink files: tags 1 and 2.
ghost use Rattle.std.specs.Prelude.{◌≡◌, ◌+◌, ◌*◌, ◌≤◌, Ok, length};
ghost use Rattle.plane.specs.Said.{told};
ghost use Rattle.plane.specs.Sinks.{prompt, check_sinks};
ghost use Rattle.fields.specs.Fields.{field, version, firsts, seconds};
ghost use Rattle.fields.specs.Form.{Formed};
ghost use Rattle.text.specs.Written.{Room, Writes as Puts};
ghost use Rattle.house.specs.Files.{sink_file};
ghost use Rattle.house.specs.Writing.{Writes};
ghost use Rattle.house.specs.Reading.{check_sink_file, xs_in, ys_in, ReadsSinks};

use crate::room::room;
use fields::tag::Tag;
use fields::{field, record};
use plane::refusal::Refusal;
use plane::sinks;
use text::page::Page;

fn put_version(page: &mut Page)
    requires { Room page.old (field 1 version) }
    ensures { Puts (field 1 version) page.old page.new }
{
    field::put_header(page, Tag::Version, 1);
    page.byte(1);
}

// The file of checked sinks.
pub(crate) fn put_sinks(page: &mut Page, xs: &[i32], ys: &[i32])
    requires { Room page.old (sink_file xs.now ys.now) × (length xs.now ≡ length ys.now) × (length xs.now ≤ 512) }
    ensures { Puts (sink_file xs.now ys.now) page.old page.new }
{
    put_version(page);
    record::put_places(page, Tag::Sinks, xs, ys);
}

// Refusals 1 to 4 and 7, else the sink file in the lent buffer, and its bytes.
pub fn write_sinks(xs: &[i32], ys: &[i32], out: &mut [u8]) -> Result<usize, Refusal>
    ensures { Writes (check_sinks 512 xs.now ys.now (prompt xs.now)) (sink_file xs.now ys.now) out.old (told result) out.new }
{
    sinks::check_places(xs, ys, 512)?;
    room(7 + 8 * xs.len(), out.len())?;
    let mut page = Page::new(out);
    put_sinks(&mut page, xs, ys);
    Ok(page.len())
}

// Refusals 2 to 4, of the sinks in a value of places.
#[tactic(auto, using(lists::proofs::Front::front_part, fields::proofs::Values::length_firsts, fields::proofs::Values::length_seconds, plane::proofs::Checks::check_prompt, crate::proofs::Answers::too_many))]
pub(crate) fn check_places(v: &[u8]) -> Result<(), Refusal>
    ensures { result ≡ check_sinks 512 (firsts v.now) (seconds v.now) (prompt (firsts v.now)) }
{
    let n = record::count_places(v);
    if 512 < n {
        return Err(Refusal::TooMany);
    }
    let mut xs = [0i32; 512];
    let mut ys = [0i32; 512];
    record::get_places(v, &mut xs, &mut ys);
    sinks::check_places(&xs[..n], &ys[..n], 512)
}

// Refusals 8 and 2 to 4.
#[tactic(auto, using(fields::proofs::Standing::formed), unfolding(crate::specs::Reading::check_sink_file))]
fn check_sink_file(file: &[u8]) -> Result<(), Refusal>
    ensures { result ≡ check_sink_file file.now }
{
    field::check_form(file, Tag::Sinks)?;
    check_places(field::value(file, Tag::Sinks))
}

// Refusal 7, else the sinks of a file that was checked, and how many there are.
pub(crate) fn take_sinks(file: &[u8], xs: &mut [i32], ys: &mut [i32]) -> Result<usize, Refusal>
    requires { Formed 2 file.now }
    ensures { ReadsSinks (Ok tt) (xs_in file.now) (ys_in file.now) xs.old ys.old (told result) xs.new ys.new }
{
    let v = field::value(file, Tag::Sinks);
    let n = record::count_places(v);
    room(n, xs.len())?;
    room(n, ys.len())?;
    record::get_places(v, xs, ys);
    Ok(n)
}

// Refusals 8, 2 to 4 and 7, else the number of sinks, with their coordinates in the lent buffers.
#[tactic(auto, using(fields::proofs::Standing::formed, plane::proofs::Checks::both_pass), unfolding(crate::specs::Reading::check_sink_file))]
pub fn read_sinks(file: &[u8], xs: &mut [i32], ys: &mut [i32]) -> Result<usize, Refusal>
    ensures { ReadsSinks (check_sink_file file.now) (xs_in file.now) (ys_in file.now) xs.old ys.old (told result) xs.new ys.new }
{
    check_sink_file(file)?;
    take_sinks(file, xs, ys)
}
