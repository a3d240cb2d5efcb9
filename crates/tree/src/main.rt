// The tree program: reads a sink file from standard input, and writes the lines of its tree to standard output.
// Where standard output does not take the whole text, a line on standard error says so; the exit status is 0 all the same.
#![tactic(auto)]

ghost use Rattle.std.specs.Prelude.{◌≡◌, ◌≤◌, List, ℕ, OnOk, length, take};
ghost use Rattle.std.specs.Io.KnownBytes.{Appends, Consumes};
ghost use Rattle.printing.specs.Program.{text_of};

use printing::program;
use std::io;
use std::io::{Read, Write};

fn main(rt: HostRuntime) {
    if answer(&mut rt.stdin(), &mut rt.stdout()).is_err() {
        let _ = rt.eprintln("tree: standard output did not take the whole text");
    }
}

// Answers what it reads, and fails where the writer does not take the whole text.
fn answer<R: Read, W: Write>(reader: &mut R, writer: &mut W) -> io::Result<()>
    ensures { OnOk result ((input : List ℕ) × Consumes (R.remaining reader.old) (R.remaining reader.new) input
        × Appends (W.contents writer.old) (W.contents writer.new) (text_of input)) }
{
    // One byte more than the longest input that is taken, so that a longer one shows.
    let mut input = [0u8; 32769];
    let got = read_full(reader, &mut input);
    let mut out = [0u8; 49152];
    let end = program::tree_lines(&input[..got], &mut out);
    writer.write_all(&out[..end])?;
    writer.flush()
}

// Reads until the buffer is full, the input ends or a read fails, and returns how many bytes stand at the buffer's front.
// Of std's methods, `read_to_end` needs a heap, and `read_exact` does not say how much it read of an input that is shorter.
fn read_full<R: Read>(reader: &mut R, buf: &mut [u8]) -> usize
    ensures within { result ≤ length buf.new }
    ensures none_lost { Consumes (R.remaining reader.old) (R.remaining reader.new) (take result buf.new) }
{
    let mut done = 0;
    while done < buf.len() {
        match reader.read(&mut buf[done..]) {
            Ok(n) if 0 < n => done += n,
            _ => break,
        }
    }
    done
}
