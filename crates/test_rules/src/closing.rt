//! The one place of each type with parts within parts where a value is dropped.
use cd_ast::Process;
use cd_book::{Book, Texts};
use cd_entries::Entry;

pub fn close_book<T: Texts + Drop>(book: Book<T>) {
    drop(book);
}

pub fn close_entry(entry: Entry) {
    drop(entry);
}

/// What a text was read as.
pub fn close_reading(process: Option<Process>) {
    drop(process);
}
