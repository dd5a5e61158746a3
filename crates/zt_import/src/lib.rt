//! Imports a log of a real system's calls as a trace. The calls run one by one over a history, behind calls that make what
//! the log uses and never got. The replies of the real system are compared with those of the semantics.
#![tactic(auto)]

mod adoption;
mod arranged;
mod causes;
mod compared;
mod comparison;
mod difference_lines;
mod differences;
mod evidence;
mod first_messages;
mod joins;
mod kind_signs;
mod look;
mod mapped;
mod moved;
mod names;
mod numbers;
mod order;
mod origin_lines;
mod parts;
mod plan;
mod port_queue;
mod requests;
mod run_log;
mod schedule;
mod scratch;
mod seen_objects;
mod session_lines;
mod skipped_names;
mod stand_ins;
mod started;
mod taken;
mod told_json;
mod told_koids;
mod trail;
mod trail_counts;
mod used_handles;

pub use compared::TOLD;
pub use difference_lines::print_difference;
pub use moved::moved_in;
pub use requests::place_requests;
pub use run_log::{Imported, import};
pub use session_lines::trace_text;
pub use skipped_names::{print_skipped, skips_handles};
pub use stand_ins::{LeftCalls, leave_out, print_left};
pub use started::join_starts;
pub use told_json::{
    counts_json, difference_json, left_json, more_notes_json, note_json, skipped_json,
};
pub use trail::{Difference, Origin, TrailStep};
pub use trail_counts::{adopted_in, calls_in, pairs_in};
