//! Streams: a reader that gives its bytes in pieces and may break off, and a writer of fixed size that takes them so. Both are
//! interrupted at every other call. What was written is shown as words or as text on one line. Nothing here takes memory.
use std::io::{self, Error, ErrorKind, Read, Write};
use std::{fmt, str};

/// Few bytes at once.
pub const PIECE: usize = 5;

/// As many bytes at once as there are.
pub const ALL: usize = usize::MAX;

/// A writer of fixed size, over bytes of the caller's. It takes bytes in pieces until its room is filled, and then refuses.
#[derive(Drop)]
pub struct Device<'a> {
    room: &'a mut [u8],
    taken: usize,
    piece: usize,
    is_flushed: bool,
    interrupted: bool,
}

impl<'a> Device<'a> {
    /// A writer with this room, which takes at most `piece` bytes at once.
    pub fn new(room: &'a mut [u8], piece: usize) -> Device<'a> {
        Device {
            room,
            taken: 0,
            piece,
            is_flushed: true,
            interrupted: false,
        }
    }

    /// A writer with this room that refuses to be flushed, and takes at most `piece` bytes at once.
    pub fn unflushed(room: &'a mut [u8], piece: usize) -> Device<'a> {
        Device {
            room,
            taken: 0,
            piece,
            is_flushed: false,
            interrupted: false,
        }
    }

    /// What was written.
    pub fn taken(&self) -> &[u8] {
        self.room.get(..self.taken).unwrap_or(&[])
    }
}

impl Write for Device<'_> {
    fn write(&mut self, bytes: &[u8]) -> io::Result<usize> {
        self.interrupted = !self.interrupted;
        if self.interrupted {
            return Err(Error::from(ErrorKind::Interrupted));
        }
        let Some(left) = self.room.get_mut(self.taken..) else {
            return Err(Error::from(ErrorKind::WriteZero));
        };
        let count = bytes.len().min(left.len()).min(self.piece);
        if count == 0 {
            return Err(Error::from(ErrorKind::WriteZero));
        }
        left[..count].copy_from_slice(&bytes[..count]);
        self.taken = self.taken.saturating_add(count);
        Ok(count)
    }

    fn flush(&mut self) -> io::Result<()> {
        if self.is_flushed {
            return Ok(());
        }
        Err(Error::from(ErrorKind::Other))
    }
}

/// A reader that gives its bytes in pieces, and may refuse where they end.
#[derive(Drop)]
pub struct Source<'a> {
    left: &'a [u8],
    refusal: Option<ErrorKind>,
    piece: usize,
    interrupted: bool,
}

impl<'a> Source<'a> {
    /// A reader of all these bytes, which gives at most `piece` of them at once.
    pub fn whole(bytes: &'a [u8], piece: usize) -> Source<'a> {
        Source {
            left: bytes,
            refusal: None,
            piece,
            interrupted: false,
        }
    }

    /// A reader that gives these bytes, at most `piece` of them at once, and behind them refuses so.
    pub fn broken(bytes: &'a [u8], refusal: ErrorKind, piece: usize) -> Source<'a> {
        Source {
            left: bytes,
            refusal: Some(refusal),
            piece,
            interrupted: false,
        }
    }
}

impl Read for Source<'_> {
    fn read(&mut self, buffer: &mut [u8]) -> io::Result<usize> {
        self.interrupted = !self.interrupted;
        if self.interrupted {
            return Err(Error::from(ErrorKind::Interrupted));
        }
        if let Some(refusal) = self.refusal
            && self.left.is_empty()
        {
            return Err(Error::from(refusal));
        }
        let count = self.left.len().min(buffer.len()).min(self.piece);
        let (first, rest) = self.left.split_at(count);
        buffer[..count].copy_from_slice(first);
        self.left = rest;
        Ok(count)
    }
}

/// Bytes shown as words, least byte first, and those of no whole word in hexadecimal behind an `x`.
#[derive(Clone, Copy)]
pub struct Words<'a>(pub &'a [u8]);

impl fmt::Display for Words<'_> {
    fn fmt<W: fmt::Write>(&self, f: &mut fmt::Formatter<W>) -> fmt::Result {
        let (words, rest) = self.0.as_chunks::<4>();
        for word in words {
            write!(f, " {}", u32::from_le_bytes(*word))?;
        }
        if !rest.is_empty() {
            write!(f, " x")?;
        }
        for byte in rest {
            write!(f, "{byte:02x}")?;
        }
        Ok(())
    }
}

/// Bytes shown as text on one line: `⏎` stands for a line feed, and `no UTF-8` for all of them where they are none.
#[derive(Clone, Copy)]
pub struct OneLine<'a>(pub &'a [u8]);

impl fmt::Display for OneLine<'_> {
    fn fmt<W: fmt::Write>(&self, f: &mut fmt::Formatter<W>) -> fmt::Result {
        let Ok(text) = str::from_utf8(self.0) else {
            return write!(f, "no UTF-8");
        };
        for symbol in text.chars() {
            if symbol == '\n' {
                write!(f, "⏎")?;
            } else {
                write!(f, "{symbol}")?;
            }
        }
        Ok(())
    }
}
