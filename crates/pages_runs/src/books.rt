//! What a run leaves behind: its history, and its book in words.

use crate::runs::{OF_PROGRAM, ample_sink, in_words, run_over};
use cm_desk::Book;
use cm_model::Entry;
use cm_top::Status;
use ctl_trait::Controller;
use pages_calls::stocks::few_blanks;
use std::alloc::Global;
use std::test::Fail;

/// Before which of so many cycles each box is asked whether it is ready.
const ASKED: u64 = 6;

/// How a run ended, the number of the entries of its book, and what box by box it holds, a line each.
pub fn left_by<C: Controller>(
    alloc: Global,
    status: Status,
    book: Option<Book<C>>,
) -> Result<String, Fail> {
    let mut told = in_words(alloc, status)?;
    push_book(&mut told, book)?;
    Ok(told)
}

/// Appends a line that tells the number of a book's entries, and a line for each box; or that there is no book.
fn push_book<C: Controller>(told: &mut String, book: Option<Book<C>>) -> Result<(), Fail> {
    let Some(book) = book else {
        told.push_str("\nno book")?;
        return Ok(());
    };
    write!(told, "\nentries {}", book.history.len())?;
    for ctl in &book.boxes {
        push_box(told, ctl)?;
    }
    Ok(())
}

/// Appends a line with the kind of a box, and the first cycles before which it is not ready.
fn push_box<C: Controller>(told: &mut String, ctl: &C) -> Result<(), Fail> {
    write!(told, "\n{}", ctl.kind().word())?;
    for cycle in 0..ASKED {
        push_unready(told, ctl, cycle)?;
    }
    Ok(())
}

fn push_unready<C: Controller>(told: &mut String, ctl: &C, cycle: u64) -> Result<(), Fail> {
    if !ctl.ready(cycle) {
        write!(told, ", not ready in {cycle}")?;
    }
    Ok(())
}

/// The history of the run of a document, over so many blanks of each kind.
pub fn history_of(alloc: Global, text: &str, in_stock: u32) -> Result<Vec<Entry>, Fail> {
    let mut source = OF_PROGRAM.source(alloc, text)?;
    let mut sink = ample_sink(alloc)?;
    let blanks = few_blanks(alloc, in_stock)?;
    let (status, book) = run_over(alloc, &mut source, &mut sink, blanks);
    drop(status);
    match book {
        Some(Book { history, .. }) => Ok(history),
        None => Err(Fail::new("the run leaves no book")),
    }
}
