//! Prints a word and the numbers after it, with spaces between.
ghost use Rattle.std.specs.Prelude.{◌≡◌, ◌++◌, ◌∷◌, [], OnOk, string_bytes};
ghost use Rattle.std.specs.Fmt.{decimal};
ghost use Rattle.zt_text.specs.ShownNumbers.{words};

use std::alloc::AllocError;

/// Appends a word and a number.
pub fn put_one(text: &mut String, word: &str, number: u64) -> Result<(), AllocError>
    ensures { OnOk result (string_bytes text.new ≡ string_bytes text.old ++ words (word.now ∷ decimal number ∷ [])) }
{
    write!(text, "{word} {number}")
}

/// Appends a word and two numbers.
pub fn put_two(text: &mut String, word: &str, first: u64, second: u64) -> Result<(), AllocError>
    ensures { OnOk result (string_bytes text.new ≡ string_bytes text.old ++ words (word.now ∷ decimal first ∷ decimal second ∷ [])) }
{
    write!(text, "{word} {first} {second}")
}

/// Appends a word and three numbers.
pub fn put_three(
    text: &mut String,
    word: &str,
    first: u64,
    second: u64,
    third: u64,
) -> Result<(), AllocError>
    ensures { OnOk result (string_bytes text.new ≡ string_bytes text.old
        ++ words (word.now ∷ decimal first ∷ decimal second ∷ decimal third ∷ [])) }
{
    write!(text, "{word} {first} {second} {third}")
}
