// Devices that give and take little, and fail.
use std::alloc::Global;
use std::io;
use std::io::{Read, Write};

/// A reader that is interrupted where its input ends.
#[derive(Drop)]
pub(crate) struct Broken<'a>(pub(crate) &'a [u8]);

impl Read for Broken<'_> {
    fn read(&mut self, buf: &mut [u8]) -> io::Result<usize> {
        if self.0.is_empty() {
            return Err(io::Error::from(io::ErrorKind::Interrupted));
        }
        self.0.read(buf)
    }
}

/// A reader that gives a byte a call. It is interrupted once at each NUL, and goes on behind it.
#[derive(Drop)]
pub(crate) struct Halting<'a>(pub(crate) &'a [u8]);

impl Read for Halting<'_> {
    fn read(&mut self, buf: &mut [u8]) -> io::Result<usize> {
        if let Some(rest) = self.0.strip_prefix(b"\0") {
            self.0 = rest;
            return Err(io::Error::from(io::ErrorKind::Interrupted));
        }
        let few = buf.len().min(1);
        self.0.read(&mut buf[..few])
    }
}

/// A writer that fails once, and goes on: at a write behind so many bytes, or at a flush behind so many others.
#[derive(Drop)]
pub(crate) struct Faltering {
    /// What it took.
    pub(crate) taken: Vec<u8>,
    /// The bytes that it takes before it fails, where it will.
    pub(crate) bytes: Option<usize>,
    /// The flushes before one fails, where one will.
    pub(crate) flushes: Option<usize>,
}

impl Write for Faltering {
    fn write(&mut self, buf: &[u8]) -> io::Result<usize> {
        let mut count = buf.len();
        if let Some(left) = self.bytes {
            if left == 0 {
                self.bytes = None;
                return Err(io::Error::from(io::ErrorKind::Interrupted));
            }
            count = count.min(left);
            self.bytes = Some(left - count);
        }
        self.taken.extend_from_slice(&buf[..count])?;
        Ok(count)
    }

    fn flush(&mut self) -> io::Result<()> {
        if let Some(left) = self.flushes {
            if left == 0 {
                self.flushes = None;
                return Err(io::Error::from(io::ErrorKind::Interrupted));
            }
            self.flushes = Some(left - 1);
        }
        Ok(())
    }
}

/// A writer that takes three bytes a call, and none once its room is used up, when it can't be
/// flushed either.
#[derive(Drop)]
pub(crate) struct Narrow {
    /// What it took.
    pub(crate) taken: Vec<u8>,
    room: usize,
}

impl Write for Narrow {
    fn write(&mut self, buf: &[u8]) -> io::Result<usize> {
        let count = buf.len().min(3).min(self.room);
        self.taken.extend_from_slice(&buf[..count])?;
        self.room -= count;
        Ok(count)
    }

    fn flush(&mut self) -> io::Result<()> {
        if self.room == 0 {
            return Err(io::Error::from(io::ErrorKind::Other));
        }
        Ok(())
    }
}

impl Narrow {
    /// A writer with room for so many bytes.
    pub(crate) fn with_room(alloc: Global, room: usize) -> Narrow {
        Narrow {
            taken: Vec::new(alloc),
            room,
        }
    }
}
