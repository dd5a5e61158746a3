//! Reads a client's lines as commands, and writes the answers as text.
#![tactic(auto)]

mod book_run;
mod client_sessions;
mod client_threads;
mod conversation;
mod counted_faults;
mod explorer;
mod hearing;
pub mod laws;
mod line_buffer;
mod line_feed;
mod loaded_text;
mod noted_text;
mod pass_session;
mod read_text;
mod responder;
mod run_loop;
mod saved_text;
mod typed_lines;

pub use book_run::{run, run_heard};
pub use client_sessions::{Caller, Served, sessions};
pub use counted_faults::Counted;
pub use explorer::explore;
pub use hearing::Listener;
pub use loaded_text::{load_text, load_text_told};
pub use noted_text::{main_text_with, tree_text_with};
pub use pass_session::session;
pub use read_text::load_read;
pub use run_loop::End;
pub use saved_text::{main_text, tree_text};
pub use typed_lines::{Aside, Host, Typed};
pub use zt_book::{Book, LoadProgress};
