//! Texts of the command line as people are shown them: on one line.
ghost use Rattle.std.specs.Prelude.{◌≡◌, ◌<◌};
ghost use Rattle.std.specs.Char.{digit_char};
ghost use Rattle.std.specs.Fmt.{WritesOnOk};
ghost use Rattle.spa_text_read.specs.Letters.{shown_text};

use std::fmt;

/// The base of the digits by which control characters are shown.
const BASE: u32 = 16;

/// A text, of which a quote and a backslash stand behind a backslash, and a control character is shown by its number, as `\u001b`.
#[derive(Clone, Copy)]
pub(crate) struct Plain<'a>(pub(crate) &'a str);

impl fmt::Display for Plain<'_> {
    ghost use Rattle.std.specs.Prelude.{Some};
    ghost use Rattle.spa_text_read.specs.Letters.{shown_text};

    ghost output = { λ it. Some (shown_text it.0.now) };

    fn fmt<W: fmt::Write>(&self, f: &mut fmt::Formatter<W>) -> fmt::Result {
        write_letters(f, self.0)
    }
}

/// Writes the letters of a text as they are shown.
fn write_letters<W: fmt::Write>(f: &mut fmt::Formatter<W>, text: &str) -> fmt::Result
    ensures { WritesOnOk W.write_str_gives f.old result (shown_text text.now) f.new }
{
    for letter in text.chars() {
        let letter = Letter(letter);
        write!(f, "{letter}")?;
    }
    Ok(())
}

/// A letter of such a text.
#[derive(Clone, Copy)]
struct Letter(char);

impl fmt::Display for Letter {
    ghost use Rattle.std.specs.Prelude.{Some};
    ghost use Rattle.spa_text_read.specs.Letters.{shown_letter};

    ghost output = { λ it. Some (shown_letter it.0) };

    fn fmt<W: fmt::Write>(&self, f: &mut fmt::Formatter<W>) -> fmt::Result {
        let letter = self.0;
        match letter {
            '"' => f.write_str("\\\""),
            '\\' => f.write_str("\\\\"),
            _ if letter.is_control() => {
                let high = digit_of(letter as u32 / BASE);
                let low = digit_of(letter as u32 % BASE);
                write!(f, "\\u00{high}{low}")
            }
            _ => write!(f, "{letter}"),
        }
    }
}

/// The hexadecimal digit of a number.
fn digit_of(number: u32) -> char
    requires { number < 16 }
    ensures { result ≡ digit_char number }
{
    match char::from_digit(number, BASE) {
        Some(digit) => digit,
        None => unreachable!(),
    }
}
