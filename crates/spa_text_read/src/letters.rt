//! Letters as people are shown them.
ghost use Rattle.std.specs.Prelude.{◌≡◌, ◌<◌, ◌∷◌, ◌++◌, [], OnOk, string_bytes};
ghost use Rattle.std.specs.Char.{digit_char};
ghost use Rattle.spa_text_read.specs.Letters.{shown_letter, shown_text};

use std::alloc::AllocError;

/// The base of the digits by which control characters are shown.
const BASE: u32 = 16;

/// Adds each letter of a text as `push_letter` does.
pub fn push_letters(text: &mut String, letters: &str) -> Result<(), AllocError>
    ensures { OnOk result (string_bytes text.new ≡ string_bytes text.old ++ shown_text letters.now) }
{
    for letter in letters.chars() {
        push_letter(text, letter)?;
    }
    Ok(())
}

/// Adds a letter: a quote and a backslash behind a backslash, and a control character, which could move a terminal, by its number, as `\u001b`.
pub fn push_letter(text: &mut String, letter: char) -> Result<(), AllocError>
    ensures { OnOk result (string_bytes text.new ≡ string_bytes text.old ++ shown_letter letter) }
{
    match letter {
        '"' => text.push_str("\\\""),
        '\\' => text.push_str("\\\\"),
        _ if letter.is_control() => {
            text.push_str("\\u00")?;
            push_digit(text, letter as u32 / BASE)?;
            push_digit(text, letter as u32 % BASE)
        }
        _ => text.push(letter),
    }
}

/// Adds a hexadecimal digit.
fn push_digit(text: &mut String, digit: u32) -> Result<(), AllocError>
    requires { digit < 16 }
    ensures { OnOk result (string_bytes text.new ≡ string_bytes text.old ++ (digit_char digit ∷ [])) }
{
    match char::from_digit(digit, BASE) {
        Some(digit) => text.push(digit),
        None => unreachable!(),
    }
}
