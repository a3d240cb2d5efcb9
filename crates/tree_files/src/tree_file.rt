// Tree files: tags 1 to 5, of which 4 and 5 are worked out by embedding.
ghost use Rattle.std.specs.Prelude.{◌≡◌, ◌++◌, ◌+◌, ◌-◌, ◌*◌, ◌≤◌, ◌<◌, length};
ghost use Rattle.plane.specs.Said.{told};
ghost use Rattle.plane.specs.Sinks.{prompt};
ghost use Rattle.orders.specs.Joins.{check_order};
ghost use Rattle.orders.specs.Sound.{Sound};
ghost use Rattle.fields.specs.Fields.{field, places, numbers, firsts, seconds, numbers_in};
ghost use Rattle.text.specs.Written.{Room, Writes as Puts};
ghost use Rattle.house.specs.Writing.{Writes};
ghost use Rattle.house.specs.Reading.{xs_in, ys_in, joins_in, ReadsJoins};
ghost use Rattle.tree_files.specs.Trees.{tree_file, unlike, check_nodes, check_tags, check_tree_file};

use embedding::embed;
use fields::number::Number;
use fields::tag::Tag;
use fields::{field, record};
use house::joined_file;
use house::room::room;
use orders::check;
use plane::refusal::Refusal;
use text::page::Page;

// What embedding gives: U, V and the wire to the parent of each node.
#[derive(Clone, Copy)]
struct Nodes<'a> {
    us: &'a [i32],
    vs: &'a [i32],
    ws: &'a [u32],
    ghost alike_v: { length us.now ≡ length vs.now },
    ghost alike_w: { length us.now ≡ length ws.now },
}

// The fields of tags 4 and 5.
fn put_tags(page: &mut Page, nodes: Nodes)
    requires { Room page.old (field 4 (places nodes.us.now nodes.vs.now) ++ field 5 (numbers 4 nodes.ws.now)) × (length nodes.us.now ≤ 1023) }
    ensures { Puts (field 4 (places nodes.entry.us.now nodes.entry.vs.now) ++ field 5 (numbers 4 nodes.entry.ws.now)) page.old page.new }
{
    record::put_places(page, Tag::Places, nodes.us, nodes.vs);
    record::put_numbers(page, Tag::Wires, nodes.ws);
}

// The file of checked sinks and joins.
fn put_tree(page: &mut Page, xs: &[i32], ys: &[i32], js: &[u16])
    requires { Sound xs.now ys.now (prompt xs.now) js.now × Room page.old (tree_file xs.now ys.now js.now) }
    ensures { Puts (tree_file xs.now ys.now js.now) page.old page.new }
{
    let m = 2 * xs.len() - 1;
    let mut us = [0i32; 1023];
    let mut vs = [0i32; 1023];
    let mut ws = [0u32; 1023];
    embed::embed_prompt(xs, ys, js, &mut us, &mut vs, &mut ws);
    joined_file::put_joined(page, xs, ys, js);
    put_tags(
        page,
        Nodes {
            us: &us[..m],
            vs: &vs[..m],
            ws: &ws[..m],
        },
    );
}

// Refusals 1 to 4, 6 and 7, else the tree file in the lent buffer, and its bytes.
pub fn write_tree(xs: &[i32], ys: &[i32], js: &[u16], out: &mut [u8]) -> Result<usize, Refusal>
    ensures { Writes (check_order xs.now ys.now (prompt xs.now) js.now) (tree_file xs.now ys.now js.now) out.old (told result) out.new }
{
    check::check_prompt(xs, ys, js)?;
    room(36 * xs.len(), out.len())?;
    let mut page = Page::new(out);
    put_tree(&mut page, xs, ys, js);
    Ok(page.len())
}

// Whether node k has another U, V or wire in the values of tags 4 and 5.
fn is_unlike(nodes: Nodes, v4: &[u8], v5: &[u8], k: usize) -> bool
    requires { (k < length nodes.us.now) × (k < length (firsts v4.now)) × (k < length (numbers_in 4 v5.now)) }
    ensures { result ≡ unlike nodes.entry.us.now nodes.entry.vs.now nodes.entry.ws.now (firsts v4.now) (seconds v4.now) (numbers_in 4 v5.now) k }
{
    if i32::read(v4, 8 * k) != nodes.us[k] {
        return true;
    }
    if i32::read(v4, 8 * k + 4) != nodes.vs[k] {
        return true;
    }
    u32::read(v5, 4 * k) != nodes.ws[k]
}

// Refusal 9, of the values of tags 4 and 5, against what embedding gives.
fn check_nodes(nodes: Nodes, v4: &[u8], v5: &[u8]) -> Result<(), Refusal>
    ensures { result ≡ check_nodes nodes.entry.us.now nodes.entry.vs.now nodes.entry.ws.now (firsts v4.now) (seconds v4.now) (numbers_in 4 v5.now) }
{
    if record::count_places(v4) != nodes.us.len() {
        return Err(Refusal::Tags);
    }
    if record::count::<u32>(v5) != nodes.us.len() {
        return Err(Refusal::Tags);
    }
    for k in 0..nodes.us.len() {
        if is_unlike(nodes, v4, v5, k) {
            return Err(Refusal::Unlike(k));
        }
    }
    Ok(())
}

// Refusal 9, of the values of tags 4 and 5, for checked sinks and joins.
fn check_tags(xs: &[i32], ys: &[i32], js: &[u16], v4: &[u8], v5: &[u8]) -> Result<(), Refusal>
    requires { Sound xs.now ys.now (prompt xs.now) js.now }
    ensures { result ≡ check_tags xs.now ys.now js.now v4.now v5.now }
{
    let m = 2 * xs.len() - 1;
    let mut us = [0i32; 1023];
    let mut vs = [0i32; 1023];
    let mut ws = [0u32; 1023];
    embed::embed_prompt(xs, ys, js, &mut us, &mut vs, &mut ws);
    check_nodes(
        Nodes {
            us: &us[..m],
            vs: &vs[..m],
            ws: &ws[..m],
        },
        v4,
        v5,
    )
}

// Refusal 9, of the values of tags 2 to 5, of which the first two were checked.
#[tactic(auto, using(lists::proofs::Front::front_part, fields::proofs::Values::length_firsts, fields::proofs::Values::length_seconds))]
fn check_tag_values(v2: &[u8], v3: &[u8], v4: &[u8], v5: &[u8]) -> Result<(), Refusal>
    requires { Sound (firsts v2.now) (seconds v2.now) (prompt (firsts v2.now)) (numbers_in 2 v3.now) }
    ensures { result ≡ check_tags (firsts v2.now) (seconds v2.now) (numbers_in 2 v3.now) v4.now v5.now }
{
    let n = record::count_places(v2);
    let m = record::count::<u16>(v3);
    let mut xs = [0i32; 512];
    let mut ys = [0i32; 512];
    let mut js = [0u16; 1022];
    record::get_places(v2, &mut xs, &mut ys);
    record::get_nodes(v3, &mut js);
    check_tags(&xs[..n], &ys[..n], &js[..m], v4, v5)
}

// Refusals 8, 2 to 4, 6 and 9.
#[tactic(auto, unfolding(crate::specs::Trees::check_tree_file))]
fn check_tree_file(file: &[u8]) -> Result<(), Refusal>
    ensures { result ≡ check_tree_file file.now }
{
    field::check_form(file, Tag::Wires)?;
    let v2 = field::value(file, Tag::Sinks);
    let v3 = field::value(file, Tag::Joins);
    joined_file::check_values(v2, v3)?;
    check_tag_values(
        v2,
        v3,
        field::value(file, Tag::Places),
        field::value(file, Tag::Wires),
    )
}

// Refusals 8, 2 to 4, 6, 9 and 7, else the number of sinks, with their coordinates and the pairs in the lent buffers.
pub fn read_tree(
    file: &[u8],
    xs: &mut [i32],
    ys: &mut [i32],
    js: &mut [u16],
) -> Result<usize, Refusal>
    ensures { ReadsJoins (check_tree_file file.now) (xs_in file.now) (ys_in file.now) (joins_in file.now) xs.old ys.old js.old (told result) xs.new ys.new js.new }
{
    check_tree_file(file)?;
    joined_file::take_joins(file, xs, ys, js)
}
