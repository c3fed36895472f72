// Standard input and output of a program that reads all, then works, then writes all.
ghost use Rattle.std.specs.Prelude.{◌≡◌, min, length, IfOk, OnErr};
ghost use Rattle.std.specs.Io.{ReadsAtMost};

use std::io;
use std::io::Read;

// Reads to the end or until the buffer is full, and answers how many bytes stand at the buffer's front.
fn read_full(from: &mut impl Read, input: &mut [u8]) -> io::Result<usize>
    ensures read { ReadsAtMost result input.new }
    ensures err { OnErr result (length input.new ≡ length input.old) }
{
    let mut done = 0;
    while done < input.len() {
        let n = from.read(&mut input[done..])?;
        if n == 0 {
            break;
        }
        done += n;
    }
    Ok(done)
}

// Reads standard input to its end or until the buffer is full, and answers how many bytes stand at the buffer's front.
// The only error is that of a read that failed; the buffer then keeps its length, and what it holds is not said.
pub fn read(rt: &impl Input, input: &mut [u8]) -> io::Result<usize>
    ensures read { ReadsAtMost result input.new }
    ensures err { OnErr result (length input.new ≡ length input.old) }
{
    read_full(&mut rt.reader(), input)
}

// Writes the first `size` bytes of a text to standard output, or all where it has fewer, and answers how many that is.
// The only error is that of a write that failed; a part of the text may then be written.
pub fn print(rt: &impl Print, text: &[u8], size: usize) -> io::Result<usize>
    ensures { IfOk result (λ n. n ≡ min size (length text.now)) }
{
    if size < text.len() {
        rt.write_all(&text[..size])?;
        Ok(size)
    } else {
        rt.write_all(text)?;
        Ok(text.len())
    }
}
