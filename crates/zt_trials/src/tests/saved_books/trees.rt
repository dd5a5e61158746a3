//! Trees as session texts, books that are loaded from them, and questions to these books.

use crate::tests::told_lines::told;
use std::alloc::Global;
use zt_book::Book;
use zt_text::{print_saved, read_saved};

/// A client with its line, and the answer to it.
pub(super) type Told = (u8, &'static str, &'static str);

/// A book of this many clients over the tree of a text.
pub(super) fn loaded(alloc: Global, clients: u8, text: &[u8]) -> Option<Book> {
    match read_saved(alloc, text) {
        Ok(saved) => match Book::load_saved(alloc, clients, &saved) {
            Ok(book) => Some(book),
            Err(_) => None,
        },
        Err(_) => None,
    }
}

/// The text of the tree as which a book is saved.
pub(super) fn saved_text(alloc: Global, book: &Book) -> Option<Vec<u8>> {
    match book.save() {
        Ok(saved) => print_saved(alloc, &saved).ok(),
        Err(_) => None,
    }
}

/// Whether a book is saved as this text.
pub(super) fn is_saved_as(alloc: Global, book: &Book, text: &[u8]) -> bool {
    match saved_text(alloc, book) {
        Some(saved) => saved.as_slice() == text,
        None => false,
    }
}

/// Whether the client gets this answer.
fn is_told(alloc: Global, book: &mut Book, told_so: Told) -> bool {
    let (client, line, lines) = told_so;
    match told(alloc, book, client, line) {
        Some(text) => text.as_slice() == lines.as_bytes(),
        None => false,
    }
}

/// Whether the clients get these answers, one after another.
pub(super) fn are_told(alloc: Global, book: &mut Book, talk: &[Told]) -> bool {
    for told_so in talk {
        if !is_told(alloc, book, *told_so) {
            return false;
        }
    }
    true
}
