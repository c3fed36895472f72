// Every example of document 01 on the compiled code, a line each: the whole answer, then what is left in the lent
// buffers. These hold 99s before each call, so that a cell that is left alone shows.
#![tactic(auto)]

mod builds;
mod expansions;
mod ladder;
mod runs;
mod showing;
mod sources;

use std::io;

fn main(rt: HostRuntime) -> io::Result<()> {
    // House book H, and H1, in which production 4 has another right side.
    let house =
        b"GR\x04\x04\x00\x06PR\x00\x02\x00\x81PR\x01\x03\x01\x82\x83PR\x02\x02\x02\x01PR\x02\x00\
          PR\x03\x02\x03\x81PR\x03\x00";
    let conflicted =
        b"GR\x04\x04\x00\x06PR\x00\x02\x00\x81PR\x01\x03\x01\x82\x83PR\x02\x02\x02\x01PR\x02\x00\
          PR\x03\x02\x02\x81PR\x03\x00";
    runs::all(&rt, house)?;
    builds::all(&rt, house, conflicted)?;
    expansions::all(&rt, house)?;
    ladder::all(&rt)?;
    sources::all(&rt)
}
