//! The tests, a module for each subject.

mod accounts;
mod books;
mod cascades;
mod checks;
mod commands;
mod copies;
mod heads;
mod history;
mod loaded_texts;
mod looks;
mod queues;
mod runs;
mod saved_books;
mod shared;
mod signals;
mod stores;
mod tables;
mod texts;
mod told_lines;
mod undone_calls;
