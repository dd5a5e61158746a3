//! Finds a text in a text.

ghost use Rattle.std.specs.Prelude.{◌≡◌};
ghost use Rattle.zt_notes.specs.Found.{has_text};

use memchr::memmem;

/// Whether the needle stands in the haystack. An empty needle stands in every haystack.
pub fn has_text(haystack: &[u8], needle: &[u8]) -> bool
    ensures { result ≡ has_text haystack.now needle.now }
{
    memmem::find(haystack, needle).is_some()
}
