// The words of an answer, written into a lent buffer.
ghost use Rattle.std.specs.Prelude.{◌≡◌, ◌+◌, ◌≤◌, length};
ghost use Rattle.std.proofs.lemmas.List.Edits.{sets};
ghost use Rattle.answers.specs.Buffers.{over};
ghost use Rattle.desk.specs.Desk.{little_endian, answer_bytes, Lent, LentCell, TrailTold};

use answers::{Answer, done};
use first::forms::Trail;
use sets::word;

// How many bytes the words of an answer take.
pub(crate) const ANSWER_SIZE: usize = 40;

// A word in eight bytes from a place on, the lowest byte first.
fn write_word(out: &mut [u8], at: usize, word: u64)
    requires { at + 8 ≤ length out.old }
    ensures { out.new ≡ sets out.old at (little_endian 8 word) }
{
    out[at..at + 8].copy_from_slice(&word.to_le_bytes());
}

// Place, detail, steps, expected set and depth, of which later bytes stay; the number is what a call returns.
pub(crate) fn tell(out: &mut [u8], a: Answer) -> u32
    requires { Lent out.old }
    ensures number { result ≡ a.number }
    ensures bytes { out.new ≡ over (answer_bytes a) out.old }
{
    write_word(out, 0, a.place);
    write_word(out, 8, a.detail);
    write_word(out, 16, a.steps);
    write_word(out, 24, word(a.expected));
    write_word(out, 32, a.depth);
    a.number
}

// A set and a number into the first cells of their buffers, on a refusal 0 into both, and the answer.
pub(crate) fn tell_trail(
    found: Result<Trail, Answer>,
    set: &mut [u64],
    count: &mut [u64],
    answer: &mut [u8],
) -> u32
    requires { LentCell set.old count.old answer.old }
    ensures { TrailTold found set.old count.old answer.old
        result set.new count.new answer.new }
{
    match found {
        Ok(trail) => {
            set[0] = word(trail.set);
            count[0] = trail.vanishing as u64;
            tell(answer, done(0))
        }
        Err(refused) => {
            set[0] = 0;
            count[0] = 0;
            tell(answer, refused)
        }
    }
}
