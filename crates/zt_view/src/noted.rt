//! Tells whether a trace has notes or names.

ghost use Rattle.std.specs.Prelude.{◌≡◌};
ghost use Rattle.zt_view.specs.Answers.{noted_word};

use zt_text::Notes;

/// The word that tells whether there are notes or names.
pub fn noted_word(notes: &Notes) -> &'static [u8]
    ensures { result.now ≡ noted_word notes.now }
{
    if notes.is_empty() {
        b"no".as_slice()
    } else {
        b"yes".as_slice()
    }
}
