// The two tables of a list of patterns, and up to where their bytes have the same readers.
ghost use Rattle.std.specs.Prelude.{◌+◌, ◌*◌, ◌<◌, length, true, ◌≡◌};
ghost use Rattle.answers.specs.Limits.{byte_values};
ghost use Rattle.moves.specs.Tables.{readers_of, NextWords};
ghost use Rattle.states.specs.Runs.{RunEnd, Runs};

use answers::limits::{BYTE_VALUES, POINT_WORDS, POSITION_WORDS};
use moves::after;

// Whether the next byte is seen to have the readers of this one: where the table is too short nothing is seen.
fn same_readers(readers: &[u64], byte: usize) -> bool
    requires { byte < byte_values }
    ensures { result ≡ true
        → readers_of readers.now (byte + 1) ≡ readers_of readers.now byte }
{
    let at = byte * POSITION_WORDS;
    let next = at + POSITION_WORDS;
    let end = next + POSITION_WORDS;
    end <= readers.len() && readers[next..end] == readers[at..next]
}

// Up to where the bytes have the readers of this one, known of the bytes above.
fn run_end(ends: &[u16; BYTE_VALUES], readers: &[u64], byte: usize) -> u16
    requires byte { byte < byte_values }
    requires above { Runs readers.now (byte + 1) ends.now }
    ensures { RunEnd readers.now byte result }
{
    let next = byte + 1;
    if next < BYTE_VALUES && same_readers(readers, byte) {
        ends[next]
    } else {
        next as u16
    }
}

// The same of each byte.
fn runs(ends: &mut [u16; BYTE_VALUES], readers: &[u64])
    requires { length ends.old ≡ byte_values }
    ensures { Runs readers.now 0 ends.new }
{
    for byte in (0..BYTE_VALUES).rev() {
        let end = run_end(ends, readers, byte);
        ends[byte] = end;
    }
}

// The tables that were given, and for each byte the end of the run of bytes with the same readers.
#[derive(Drop)]
pub(crate) struct Tables<'t> {
    pub(crate) readers: &'t [u64],
    pub(crate) follow: &'t [u64],
    pub(crate) ends: [u16; BYTE_VALUES],
    ghost runs: { Runs readers.now 0 ends },
}

impl<'t> Tables<'t> {
    pub(crate) fn new(readers: &'t [u64], follow: &'t [u64]) -> Tables<'t>
        ensures readers { result.readers ≡ readers.entry }
        ensures follow { result.follow ≡ follow.entry }
    {
        let mut ends = [0u16; BYTE_VALUES];
        runs(&mut ends, readers);
        Tables {
            readers,
            follow,
            ends,
        }
    }

    // The points that come after set number `state` of a slice of sets.
    pub(crate) fn after(&self, sets: &[u64], state: u16, byte: u8) -> [u64; POINT_WORDS]
        ensures { NextWords sets.now state self.now.readers.now byte self.now.follow.now result }
    {
        let mut next = [0u64; POINT_WORDS];
        after(&mut next, sets, state, self.readers, byte, self.follow);
        next
    }
}
