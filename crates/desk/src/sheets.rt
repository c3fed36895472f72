// The calls of grammar sheets: a book's sheet written, and a sheet's book.
ghost use Rattle.desk.specs.Desk.{WriteSheetCall, ReadSheetCall};

use crate::words::{ANSWER_SIZE, tell};
use answers::refusals::Refusal;
use sheet::reading::read;
use sheet::writing::write;

// The sheet of a book into the lent buffer.
#[unsafe(no_mangle)]
pub extern "C" fn desk_write_sheet(book: &[u8], sheet: &mut [u8], answer: &mut [u8]) -> u32
    ensures { WriteSheetCall
        book.now
        sheet.old
        answer.old
        result
        sheet.new
        answer.new }
{
    if answer.len() < ANSWER_SIZE {
        return Refusal::Room.number();
    }
    let written = write(book, sheet);
    tell(answer, written)
}

// The book of a sheet into the lent buffer.
#[unsafe(no_mangle)]
pub extern "C" fn desk_read_sheet(sheet: &[u8], book: &mut [u8], answer: &mut [u8]) -> u32
    ensures { ReadSheetCall
        sheet.now
        book.old
        answer.old
        result
        book.new
        answer.new }
{
    if answer.len() < ANSWER_SIZE {
        return Refusal::Room.number();
    }
    let told = read(sheet, book);
    tell(answer, told)
}
