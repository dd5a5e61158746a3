//! Checks the names of branches.

ghost use Rattle.std.specs.Prelude.{◌≡◌};
ghost use Rattle.std.specs.List.{list_all};
ghost use Rattle.zt_book.specs.Session.{is_letter, is_name, is_name_byte};

/// The longest name of a branch, in bytes.
const NAME_BYTES: usize = 32;

/// Whether a branch can have this name: 1 to 32 small letters, digits, `_` and `-`, beginning with a letter.
pub(crate) fn is_name(name: &[u8]) -> bool
    ensures { result ≡ is_name name.now }
{
    match name {
        [] => false,
        [first, others @ ..] => is_letter(*first)
            && are_name_bytes(others)
            && others.len() < NAME_BYTES,
    }
}

/// Whether each of these bytes can be in a name.
fn are_name_bytes(bytes: &[u8]) -> bool
    ensures { result ≡ list_all is_name_byte bytes.now }
{
    bytes.iter().all(|byte| is_name_byte(*byte))
}

/// Whether this byte can be in a name.
fn is_name_byte(byte: u8) -> bool
    ensures { result ≡ is_name_byte byte }
{
    is_letter(byte) || (b'0' <= byte && byte <= b'9') || byte == b'_' || byte == b'-'
}

/// Whether this byte is a small letter.
fn is_letter(byte: u8) -> bool
    ensures { result ≡ is_letter byte }
{
    b'a' <= byte && byte <= b'z'
}
