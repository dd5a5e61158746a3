//! Answers the requests of browsers about a history: what each asks for, whether it is admitted, and its response.
#![tactic(auto)]

mod cuts;
mod guard;
mod lacks;
mod lineages;
mod lives;
mod noted;
mod page;
mod path_ranges;
mod query;
mod question;
mod requests;
mod responses;
mod talk;
mod view;

pub use guard::Own;
pub use lacks::{Lack, Taking};
pub use page::Part;
pub use question::ViewQuestion;
pub use requests::ViewRequest;
pub use view::View;
