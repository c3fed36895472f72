// A sheet's book: the form looked at first, then the values, then the bytes put together in a local buffer, and copied
// where there is room.
ghost use Rattle.std.specs.Prelude.{◌≡◌, ℕ, Ok};
ghost use Rattle.sheet.specs.Sheet.{HasForm};
ghost use Rattle.sheet.specs.Judging.{head_in, sheet_judged};
ghost use Rattle.sheet.specs.Calls.{ReadOutcome};

use crate::booking::put_book;
use crate::form::first_break;
use crate::judging::{head_in, judge};
use crate::writing::copy;
use answers::limits::LONGEST_BOOK;
use answers::refusals::Refusal;
use answers::{Answer, refusal};

// The book of a sheet whose values are in range and whose lines are as many as it says.
fn read_good(sheet: &[u8], book: &mut [u8]) -> Answer
    requires { HasForm sheet.now × ((end : ℕ) × (sheet_judged sheet.now (head_in sheet.now) ≡ Ok end)) }
    ensures { ReadOutcome sheet.now book.old result book.new }
{
    let mut bytes = [0u8; LONGEST_BOOK];
    let size = put_book(&mut bytes, sheet, head_in(sheet));
    copy(&bytes[..size], book)
}

// The book of a sheet that has the form, or the refusal of its values or its lines.
fn read_formed(sheet: &[u8], book: &mut [u8]) -> Answer
    requires { HasForm sheet.now }
    ensures { ReadOutcome sheet.now book.old result book.new }
{
    match judge(sheet, head_in(sheet)) {
        Ok(_) => read_good(sheet, book),
        Err(fault) => Answer::from(fault),
    }
}

// The book of a sheet into the lent buffer, or 13, 4, 5, 1, 3, or 7.
pub fn read(sheet: &[u8], book: &mut [u8]) -> Answer
    ensures { ReadOutcome sheet.now book.old result book.new }
{
    match first_break(sheet) {
        Ok(()) => read_formed(sheet, book),
        Err(at) => refusal(Refusal::Form, at as u64, 0),
    }
}
