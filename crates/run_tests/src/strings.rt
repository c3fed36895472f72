// The token strings on standard input, one after another, each run and shown.
ghost use Rattle.std.specs.Prelude.{◌<◌, ◌≤◌, length, IfOk};

use crate::telling::show;
use reader::fields::byte_at;
use std::io;

// Shows the string at a place and answers the place behind it; what is cut off ends the input.
fn next(rt: &impl Print, input: &[u8], at: usize) -> io::Result<usize>
    requires { at < length input.now }
    ensures { IfOk result (λ next. (at < next) × (next ≤ length input.now)) }
{
    if input.len() - at < 2 {
        return Ok(input.len());
    }
    let from = at + 2;
    let size = byte_at(input, at, 0) as usize + 256 * byte_at(input, at, 1) as usize;
    if input.len() - from < size {
        return Ok(input.len());
    }
    let end = from + size;
    show(rt, &input[from..end])?;
    Ok(end)
}

fn all(rt: &impl Print, input: &[u8]) -> io::Result<()> {
    let mut at: usize = 0;
    while at < input.len() {
        at = next(rt, input, at)?;
    }
    Ok(())
}

// Every string in the first `size` bytes.
pub(crate) fn each(rt: &impl Print, input: &[u8], size: usize) -> io::Result<()> {
    if size <= input.len() {
        all(rt, &input[..size])?;
    }
    Ok(())
}
