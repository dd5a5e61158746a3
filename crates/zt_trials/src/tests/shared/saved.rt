//! A shared book that was closed, saved as a tree, and loaded for its two clients.

use crate::tests::told_lines::tell_all_same;
use std::alloc::Global;
use zt_book::Book;

/// A client with its line.
type ClientLine = (u8, &'static str);

/// The lines that look at the book: where each client stands, each moment with its rows, and that there is no further
/// moment.
const LOOKS: [ClientLine; 13] = [
    (1, "show"),
    (2, "show"),
    (1, "goto 0"),
    (1, "show"),
    (1, "goto 1"),
    (1, "show"),
    (1, "goto 2"),
    (1, "show"),
    (1, "goto 3"),
    (1, "show"),
    (1, "goto 4"),
    (2, "goto 1"),
    (2, "show"),
];

// No clause tells what this function returns. So a proof of its callers does not go over the bytes.

fn looks() -> &'static [ClientLine] {
    LOOKS.as_slice()
}

/// A book of two clients over the tree as which this book is saved.
fn loaded_again(alloc: Global, book: &Book) -> Option<Book> {
    match book.save() {
        Ok(saved) => match Book::load_saved(alloc, 2, &saved) {
            Ok(loaded) => Some(loaded),
            Err(_) => None,
        },
        Err(_) => None,
    }
}

/// Whether a book can be saved and loaded for its two clients, and both books give the same answers.
pub(super) fn tells_the_same_loaded(alloc: Global, book: &mut Book) -> bool {
    match loaded_again(alloc, book) {
        Some(mut loaded) => {
            loaded.log().len() == 0 && tell_all_same(alloc, &mut loaded, book, looks())
        }
        None => false,
    }
}
