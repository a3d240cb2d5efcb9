// House files, written and read.
ghost use Rattle.skeprafter_c.specs.Files.{WritesSinkFile, WritesJoinedFile, WritesTreeFile, ReadsSinkFile, ReadsJoinedFile, ReadsTreeFile};

use crate::said;

#[unsafe(no_mangle)]
pub extern "C" fn skeprafter_write_sinks(x: &[i32], y: &[i32], out: &mut [u8], said: &mut [u64; 6])
    ensures { WritesSinkFile x.now y.now out.old out.new said.new }
{
    *said = said::of_answer(skeprafter::write_sinks(x, y, out));
}

#[unsafe(no_mangle)]
pub extern "C" fn skeprafter_write_joined(
    x: &[i32],
    y: &[i32],
    joins: &[u16],
    out: &mut [u8],
    said: &mut [u64; 6],
)
    ensures { WritesJoinedFile x.now y.now joins.now out.old out.new said.new }
{
    *said = said::of_answer(skeprafter::write_joined(x, y, joins, out));
}

#[unsafe(no_mangle)]
pub extern "C" fn skeprafter_write_tree(
    x: &[i32],
    y: &[i32],
    joins: &[u16],
    out: &mut [u8],
    said: &mut [u64; 6],
)
    ensures { WritesTreeFile x.now y.now joins.now out.old out.new said.new }
{
    *said = said::of_answer(skeprafter::write_tree(x, y, joins, out));
}

#[unsafe(no_mangle)]
pub extern "C" fn skeprafter_read_sinks(
    file: &[u8],
    x: &mut [i32],
    y: &mut [i32],
    said: &mut [u64; 6],
)
    ensures { ReadsSinkFile file.now x.old y.old x.new y.new said.new }
{
    *said = said::of_answer(skeprafter::read_sinks(file, x, y));
}

#[unsafe(no_mangle)]
pub extern "C" fn skeprafter_read_joined(
    file: &[u8],
    x: &mut [i32],
    y: &mut [i32],
    joins: &mut [u16],
    said: &mut [u64; 6],
)
    ensures { ReadsJoinedFile file.now x.old y.old joins.old x.new y.new joins.new said.new }
{
    *said = said::of_answer(skeprafter::read_joined(file, x, y, joins));
}

#[unsafe(no_mangle)]
pub extern "C" fn skeprafter_read_tree(
    file: &[u8],
    x: &mut [i32],
    y: &mut [i32],
    joins: &mut [u16],
    said: &mut [u64; 6],
)
    ensures { ReadsTreeFile file.now x.old y.old joins.old x.new y.new joins.new said.new }
{
    *said = said::of_answer(skeprafter::read_tree(file, x, y, joins));
}
