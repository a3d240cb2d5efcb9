// The program's answer to a sink file.
ghost use Rattle.std.specs.Prelude.{◌≡◌, ◌+◌, ◌-◌, ◌*◌, ◌≤◌, length};
ghost use Rattle.lists.specs.Grow.{front};
ghost use Rattle.plane.specs.Sinks.{sinks_in, count};
ghost use Rattle.lines.specs.Parts.{SinkedBy};
ghost use Rattle.lines.specs.Printed.{Printed};
ghost use Rattle.printing.specs.Program.{joins_of, lines_of, text_of};
ghost use Rattle.text.specs.Written.{Writes};

use embedding::embed;
use house::sink_file;
use lines::embedded::Embedded;
use lines::{line, whole};
use nearest::order;
use plane::sinks::Sinks;
use search::search as exact;
use subsets::subset;
use text::page::Page;

// The pairs of the program's tree: of the exact search for at most twelve sinks, by least diameter for more.
fn write_joins(sinks: &Sinks<'_>, js: &mut [u16])
    requires sinks { SinkedBy sinks.now }
    requires room { 2 * (count sinks.now - 1) ≤ length js.old }
    ensures { js.new ≡ front (joins_of (sinks_in sinks.now)) js.old }
{
    let n = sinks.xs.len();
    if n <= 12 {
        let mut table = [0u32; 4096];
        exact::search_joins(sinks, subset::all_steps(n), &mut table, js);
        return;
    }
    order::order_sound(sinks, js);
}

// The lines of the program's tree, in room for N nodes.
fn lines_in<const N: usize>(page: &mut Page, sinks: &Sinks<'_>)
    requires sinks { SinkedBy sinks.now }
    requires nodes { 2 * count sinks.now - 1 ≤ N }
    requires size { N ≤ 1023 }
    requires room { page.old.at + 49152 ≤ length page.old.out.now }
    ensures writes { Writes (lines_of (sinks_in sinks.now)) page.old page.new }
    ensures within { page.new.at ≤ page.old.at + 49152 }
{
    let n = sinks.xs.len();
    let mut js = [0u16; N];
    write_joins(sinks, &mut js);
    let js = &js[..2 * (n - 1)];
    let mut us = [0i32; N];
    let mut vs = [0i32; N];
    let mut ws = [0u32; N];
    let total = embed::embed_into(sinks, js, &mut us, &mut vs, &mut ws);
    let tree = Embedded {
        n,
        js,
        us: &us,
        vs: &vs,
        ws: &ws,
        total,
    };
    whole::tree_text(page, &tree, n <= 12);
}

// The same, with no more room to blank than the sinks need.
fn sinks_lines(page: &mut Page, sinks: &Sinks<'_>)
    requires sinks { SinkedBy sinks.now }
    requires room { page.old.at + 49152 ≤ length page.old.out.now }
    ensures writes { Writes (lines_of (sinks_in sinks.now)) page.old page.new }
    ensures within { page.new.at ≤ page.old.at + 49152 }
{
    if 12 < sinks.xs.len() {
        return lines_in::<1023>(page, sinks);
    }
    lines_in::<23>(page, sinks);
}

// All that the program prints for its input. Every answer fits the buffer.
pub fn tree_lines(input: &[u8], out: &mut [u8; 49152]) -> usize
    ensures { Printed (text_of input.now) out.old result out.new }
{
    let mut page = Page::new(out);
    if 32768 < input.len() {
        line::too_long_line(&mut page);
        return page.len();
    }
    let mut xs = [0i32; 512];
    let mut ys = [0i32; 512];
    let none = [0u32; 512];
    match sink_file::read_sinks(input, &mut xs, &mut ys) {
        Err(r) => line::refusal_line(&mut page, r),
        Ok(n) => {
            let sinks = Sinks {
                xs: &xs[..n],
                ys: &ys[..n],
                delays: &none[..n],
            };
            sinks_lines(&mut page, &sinks)
        }
    }
    page.len()
}
