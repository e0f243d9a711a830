//! Where a text ends: at the first line feed at which no bracket is open.
ghost use Rattle.std.specs.Prelude.{◌≡◌, ◌≢◌, ◌+◌, ◌<◌, ◌≤◌, ◌^◌, ◌&&◌, ◌==◌, [], length};
ghost use Rattle.spa_text_commands.specs.Extent as spec;
ghost use Rattle.spa_text_commands.specs.Extent.{BeginsText, column_behind, line_behind};
ghost use Rattle.spa_text_commands.specs.Hexadecimal.{behind_line, first_line};
ghost use Rattle.spa_text_commands.specs.Unread.{place_of};

use memchr::memchr;

/// Where a byte of a text stands.
#[derive(Clone, Copy)]
enum Place {
    /// Outside of strings.
    Outside,
    /// In one.
    Within,
    /// Behind a backslash in one.
    Escaped,
}

/// How far brackets are open behind some bytes.
#[derive(Clone, Copy)]
struct OpenBrackets {
    place: Place,
    /// How many.
    count: usize,
}

impl OpenBrackets {
    /// Whether this byte ends the text.
    fn ends(self, byte: u8) -> bool
        ensures { result ≡ (byte == 10 && self.count == 0) }
    {
        byte == b'\n' && self.count == 0
    }

    /// What is open behind this byte.
    fn pass(self, byte: u8) -> OpenBrackets
        requires { self.count + 1 < 2 ^ 64 }
        ensures place { place_of result.place ≡ spec.place_behind (place_of self.place) byte }
        ensures count { result.count ≡ spec.open_behind (place_of self.place) byte self.count }
    {
        OpenBrackets {
            place: place_behind(self.place, byte),
            count: open_behind(self.place, byte, self.count),
        }
    }
}

/// The place behind a byte. A line feed ends a string, which none has.
fn place_behind(place: Place, byte: u8) -> Place
    ensures { place_of result ≡ spec.place_behind (place_of place) byte }
{
    match place {
        Place::Outside => {
            if byte == b'"' {
                Place::Within
            } else {
                Place::Outside
            }
        }
        Place::Within => {
            if byte == b'"' || byte == b'\n' {
                Place::Outside
            } else if byte == b'\\' {
                Place::Escaped
            } else {
                Place::Within
            }
        }
        Place::Escaped => {
            if byte == b'\n' {
                Place::Outside
            } else {
                Place::Within
            }
        }
    }
}

/// How many brackets are open behind a byte there, of so many before it.
fn open_behind(place: Place, byte: u8, count: usize) -> usize
    requires { count + 1 < 2 ^ 64 }
    ensures { result ≡ spec.open_behind (place_of place) byte count }
{
    match place {
        Place::Outside => {
            if byte == b'{' || byte == b'[' {
                count + 1
            } else if byte == b'}' || byte == b']' {
                count.saturating_sub(1)
            } else {
                count
            }
        }
        Place::Within => count,
        Place::Escaped => count,
    }
}

/// The first text, without the end of its last line, and what follows that.
#[tactic(auto, using(crate::proofs::Extents::none_passed, crate::proofs::Extents::one_passed, crate::proofs::Extents::all_passed, crate::proofs::Extents::text_passed, crate::proofs::Extents::few_open))]
pub(crate) fn split_text(bytes: &[u8]) -> (&[u8], &[u8])
    ensures { bytes.now ≢ [] → BeginsText bytes.now result.0.now result.1.now }
{
    let mut open = OpenBrackets {
        place: Place::Outside,
        count: 0,
    };
    let mut left = bytes;
    while let Some((byte, behind)) = left.split_first() {
        if open.ends(*byte) {
            let text = &bytes[..bytes.len() - left.len()];
            return (text, behind);
        }
        open = open.pass(*byte);
        left = behind;
    }
    (bytes, left)
}

/// The first line, without its line feed, and what follows that.
#[tactic(auto, using(crate::proofs::FirstLine::line_found, crate::proofs::FirstLine::no_line_found))]
pub(crate) fn split_line(bytes: &[u8]) -> (&[u8], &[u8])
    ensures line { result.0.now ≡ first_line bytes.now }
    ensures behind { result.1.now ≡ behind_line bytes.now }
{
    match memchr(b'\n', bytes) {
        Some(at) => (&bytes[..at], &bytes[at + 1..]),
        None => (bytes, &[]),
    }
}

/// The line and the column behind these bytes, which begin with this line.
#[tactic(auto, using(crate::proofs::Extents::none_placed, crate::proofs::Extents::line_feed_placed, crate::proofs::Extents::byte_placed, crate::proofs::Extents::line_placed, crate::proofs::Extents::column_placed, crate::proofs::Extents::line_fits, crate::proofs::Extents::column_fits))]
pub(crate) fn position_behind(bytes: &[u8], first: usize) -> (usize, usize)
    requires { first + length bytes.now < 2 ^ 64 }
    ensures line { result.0 ≡ line_behind first bytes.now }
    ensures column { result.1 ≡ column_behind 1 bytes.now }
    ensures within { result.0 ≤ first + length bytes.now }
{
    let mut line = first;
    let mut column: usize = 1;
    let mut left = bytes;
    while let Some((byte, behind)) = left.split_first() {
        if *byte == b'\n' {
            line += 1;
            column = 1;
        } else {
            column += 1;
        }
        left = behind;
    }
    (line, column)
}
