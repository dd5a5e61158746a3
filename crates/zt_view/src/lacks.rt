//! Explains why a request asks for nothing that exists.

ghost use Rattle.std.specs.Prelude.{◌≡◌, ◌≤◌};
ghost use Rattle.zt_view.specs.Lacks.{lack_of, lack_status, lack_text, taking_text};

use crate::cuts::is;
use http::StatusCode;

/// Why a request asks for nothing that exists.
#[derive(Clone, Copy)]
pub enum Lack {
    /// No such path exists.
    NoPath,
    /// The path needs other words after its first one.
    Takes(Taking),
    /// The path needs `GET`.
    AskedByGet,
    /// The path needs `POST`.
    AskedByPost,
}

/// The first word of a path that needs more words.
#[derive(Clone, Copy)]
pub enum Taking {
    Change,
    Calls,
    Events,
    Path,
    Object,
    Handle,
    Lineage,
}

impl Lack {
    /// Returns the status of the response.
    pub fn status(self) -> StatusCode
        ensures status { result ≡ lack_status self }
        ensures refusal { 400 ≤ result }
    {
        match self {
            Lack::NoPath => StatusCode::NOT_FOUND,
            Lack::Takes(_) => StatusCode::BAD_REQUEST,
            Lack::AskedByGet | Lack::AskedByPost => StatusCode::METHOD_NOT_ALLOWED,
        }
    }

    /// Returns the line of the response.
    pub fn text(self) -> &'static str
        ensures { result.now ≡ lack_text self }
    {
        match self {
            Lack::NoPath => {
                "There is no such path. The paths are /branches, /calls, /change, /end, /events, /handle, /lineage, /lines, /noted, /object, /path, /trace and /tree.\n"
            }
            Lack::Takes(word) => word.text(),
            Lack::AskedByGet => "Use GET for this path.\n",
            Lack::AskedByPost => "Use POST for this path.\n",
        }
    }
}

impl Taking {
    /// Returns the line that says which words the path needs.
    fn text(self) -> &'static str
        ensures { result.now ≡ taking_text self }
    {
        match self {
            Taking::Change => "The form is /change/MOMENT.\n",
            Taking::Calls => {
                "The form is /calls/AT/FROM/TO, with at most 16384 moments from FROM to TO. The query may have failed, process=P and object=K, joined by &.\n"
            }
            Taking::Events => {
                "The form is /events/AT/FROM/TO, with at most 16384 moments from FROM to TO. The query may have made, ended, peer_closed and leaked, joined by &.\n"
            }
            Taking::Path => "The form is /path/AT/FROM.\n",
            Taking::Object => "The form is /object/KOID/AT.\n",
            Taking::Handle => "The form is /handle/PROCESS/VALUE/AT.\n",
            Taking::Lineage => "The form is /lineage/KOID/AT.\n",
        }
    }
}

/// Returns what is wrong with a path that begins with this word and asks for nothing.
#[tactic(auto, unfolding(crate::specs::Lacks::lack_of))]
pub fn lack_of(word: &[u8]) -> Lack
    ensures { result ≡ lack_of word.now }
{
    if is(word, "change") {
        Lack::Takes(Taking::Change)
    } else if is(word, "calls") {
        Lack::Takes(Taking::Calls)
    } else if is(word, "events") {
        Lack::Takes(Taking::Events)
    } else if is(word, "path") {
        Lack::Takes(Taking::Path)
    } else if is(word, "object") {
        Lack::Takes(Taking::Object)
    } else if is(word, "handle") {
        Lack::Takes(Taking::Handle)
    } else if is(word, "lineage") {
        Lack::Takes(Taking::Lineage)
    } else {
        Lack::NoPath
    }
}
