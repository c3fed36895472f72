// What this program prints of answers and lent buffers.
use answers::Answer;
use std::io;

// The example's name, then number, place, detail, steps, expected set and depth.
pub(crate) fn show_answer(rt: &impl Print, name: &str, answer: Answer) -> io::Result<()> {
    print!(rt;
        "{name} {} {} {} {} {:016x} {}",
        answer.number, answer.place, answer.detail, answer.steps, answer.expected.word, answer.depth
    )
}

// A buffer's name, then its cells.
pub(crate) fn show_cells(rt: &impl Print, name: &str, cells: &[u8]) -> io::Result<()> {
    rt.print(name)?;
    for cell in cells {
        print!(rt; " {cell}")?;
    }
    Ok(())
}

// A buffer's name, then its sets.
pub(crate) fn show_sets(rt: &impl Print, name: &str, family: &[u64]) -> io::Result<()> {
    rt.print(name)?;
    for set in family {
        print!(rt; " {set:016x}")?;
    }
    Ok(())
}

pub(crate) fn end_line(rt: &impl Print) -> io::Result<()> {
    rt.print("\n")
}
