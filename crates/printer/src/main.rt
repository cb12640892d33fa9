// The plan printer (01, "Proved examples"): reads one line and prints the plan's triples, the refusal, or `unread`. Where the
// line could not be read or the text not be written, it says so on standard error, and its exit status is 1.
#![tactic(auto)]

ghost use Rattle.std.specs.Prelude.{◌≤◌, length, IfOk};

use std::io;
use std::io::Read;

// Reads until the line is full or the input ends, and returns how many bytes came.
fn read_line(input: &mut impl Read, line: &mut [u8]) -> io::Result<usize>
    ensures { IfOk result (λ n. n ≤ length line.new) }
{
    let mut n = 0;
    // A read brings one byte at least, until no byte is wanted or none is left.
    for _ in 0..line.len() {
        let more = input.read(&mut line[n..])?;
        if more == 0 {
            break;
        }
        n += more;
    }
    Ok(n)
}

fn main(rt: HostRuntime) -> io::Result<()> {
    // A line of the form has 30 bytes at most, so what fills 31 has another form, whatever follows it.
    let mut line = [0; 31];
    let n = read_line(&mut rt.stdin(), &mut line)?;
    let mut text = [0; 18000];
    let end = printing::show(&line[..n], &mut text);
    rt.write_all(&text[..end])
}
