//! A reader and a writer that fail, or give and take little at a time.
use std::alloc::Global;
use std::io::{self, ErrorKind, Read, Write};

/// Reads out a text, at most so many bytes a call. Behind it it fails once, where it has a cause for
/// that, and then ends.
#[derive(Drop)]
pub(super) struct Input<'a> {
    pub(super) rest: &'a [u8],
    pub(super) most: usize,
    pub(super) cause: Option<ErrorKind>,
    pub(super) reads: usize,
}

impl<'a> Input<'a> {
    /// Creates a reader of this text which doesn't fail.
    pub(super) fn new(text: &'a str) -> Input<'a> {
        Input {
            rest: text.as_bytes(),
            most: usize::MAX,
            cause: None,
            reads: 0,
        }
    }
}

impl Read for Input<'_> {
    fn read(&mut self, buf: &mut [u8]) -> io::Result<usize> {
        self.reads = self.reads.saturating_add(1);
        if self.rest.is_empty() {
            return match self.cause.take() {
                Some(cause) => Err(io::Error::from(cause)),
                None => Ok(0),
            };
        }
        let count = self.rest.len().min(self.most).min(buf.len());
        let (first, rest) = self.rest.split_at(count);
        buf[..count].copy_from_slice(first);
        self.rest = rest;
        Ok(count)
    }
}

/// Takes at most so many bytes a call, and fails where its room is used up. Where it has a cause for
/// that, it fails at its first write too.
#[derive(Drop)]
pub(super) struct Device {
    pub(super) bytes: Vec<u8>,
    pub(super) room: usize,
    pub(super) most: usize,
    pub(super) cause: Option<ErrorKind>,
    pub(super) writes: usize,
}

impl Device {
    /// Creates a device with this room, which takes at most so many bytes a call.
    pub(super) fn new(alloc: Global, room: usize, most: usize) -> Device {
        Device {
            bytes: Vec::new(alloc),
            room,
            most,
            cause: None,
            writes: 0,
        }
    }
}

impl Write for Device {
    fn write(&mut self, buf: &[u8]) -> io::Result<usize> {
        self.writes = self.writes.saturating_add(1);
        if let Some(cause) = self.cause.take() {
            return Err(io::Error::from(cause));
        }
        let left = self.room.saturating_sub(self.bytes.len());
        let count = buf.len().min(self.most).min(left);
        if left == 0 || self.bytes.extend_from_slice(&buf[..count]).is_err() {
            return Err(io::Error::from(ErrorKind::Other));
        }
        Ok(count)
    }

    /// Fails, since nobody has to ask for it.
    fn flush(&mut self) -> io::Result<()> {
        Err(io::Error::from(ErrorKind::Other))
    }
}
