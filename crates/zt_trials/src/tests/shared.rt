//! A shared book, beside a book of one thread that is asked the same.

mod branches;
mod opened_books;
mod same_logs;
mod saved;
mod threads;
mod trials;
mod twins;
mod wholes;
