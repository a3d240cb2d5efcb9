// The program's lines.
ghost use Rattle.lines.specs.Printed.{Printed};
ghost use Rattle.printing.specs.Program.{text_of};

#[unsafe(no_mangle)]
pub extern "C" fn skeprafter_tree_lines(input: &[u8], out: &mut [u8; 49152]) -> usize
    ensures { Printed (text_of input.now) out.old result out.new }
{
    skeprafter::tree_lines(input, out)
}
