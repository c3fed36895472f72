// The reader: it carries the caller's book and its own place, and goes from part to part.
ghost use Rattle.std.specs.Prelude.{◌≡◌, Ok};
ghost use Rattle.reader.specs.Positional.{header_of, records_from, ended_at};
ghost use Rattle.reader.specs.Reader.{at_front, Carried};
ghost use Rattle.reader.specs.Verdicts.{verdict_of};

use crate::{Fault, Reader, spelling};

impl<'a> Reader<'a> {
    // A reader at the front of the book.
    pub(crate) fn new(book: &'a [u8]) -> Reader<'a>
        ensures { result ≡ at_front book.entry }
    {
        Reader { book, at: 0 }
    }

    // The reader behind the header.
    pub(crate) fn header(self) -> Result<Reader<'a>, Fault>
        ensures { Carried self.entry (header_of self.entry.book.now) result }
    {
        let book = self.book;
        let at = spelling::header(book)?;
        Ok(Reader { book, at })
    }

    // The reader behind the records from its place on.
    pub(crate) fn records(self) -> Result<Reader<'a>, Fault>
        ensures { Carried self.entry (records_from self.entry.book.now (Ok self.entry.at)) result }
    {
        let book = self.book;
        let at = spelling::records(book, self.at)?;
        Ok(Reader { book, at })
    }

    // Its place, where the book ends there.
    pub(crate) fn end(self) -> Result<usize, Fault>
        ensures { result ≡ ended_at self.entry.book.now self.entry.at }
    {
        spelling::end(self.book, self.at)
    }
}

// The refusal 1 to 5 of a book, or its length as the next place.
pub fn read(book: &[u8]) -> Result<usize, Fault>
    ensures { result ≡ verdict_of book.now }
{
    let front = Reader::new(book);
    let behind = front.header()?;
    let last = behind.records()?;
    last.end()
}
