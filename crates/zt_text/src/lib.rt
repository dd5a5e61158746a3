//! Reads the lines of clients and of session texts, and prints calls, answers, refusals and session texts.
#![tactic(auto)]

mod bytes;
mod call_names;
mod fields;
mod front_numbers;
pub mod laws;
mod lists;
mod name_lines;
mod name_table;
mod names;
mod note_ends;
mod noted_texts;
mod notes;
mod notes_reader;
mod numbers;
mod printed_answers;
mod printed_calls;
mod printed_rows;
mod printed_saved;
mod printed_words;
mod read_calls;
mod read_lines;
mod row_of_calls;
mod saved_lines;
mod saved_lists;
mod saved_text;
mod separator;
mod session_calls;
mod session_text;
mod within;
mod write_arguments;

pub use name_lines::Subject;
pub use noted_texts::{put_noted_call, put_noted_moment};
pub use notes::Notes;
pub use printed_answers::{print_answer, put_supports};
pub use printed_calls::{print_call, print_session, put_call};
pub use printed_rows::{
    RefusalLine, print_refusal, print_reply, print_rows, put_bytes, put_critical, put_key,
    put_life, put_mask, put_reply,
};
pub use printed_saved::{print_saved, put_moment, put_places};
pub use read_lines::{LINE_BYTES, Line, read_line};
pub use saved_text::read_saved;
pub use session_calls::SessionCalls;
pub use session_text::{line_of_call, read_session};
