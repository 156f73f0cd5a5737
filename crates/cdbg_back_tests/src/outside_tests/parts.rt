//! A system whose files give and take their bytes in parts.

use std::alloc::Allocator;
use std::cell::Cell;
use std::fs::{Metadata, OpenFile, OpenOptions};
use std::io;
use std::io::{Read, Seek, SeekFrom, Write};
use std::rt::Files;

/// What a file answers to one read.
pub enum Answer {
    Gives(&'static [u8]),
    Interrupted,
    Fault,
}

/// A system of which each file answers its reads in turn and is then at its end, and takes two bytes at a time as long
/// as it has room.
#[derive(Drop)]
pub struct Parts<'a> {
    pub answers: &'static [Answer],
    pub room: usize,
    pub is_full_an_error: bool,
    pub can_flush: bool,
    /// The bytes that a file took, as the digits of a number.
    pub taken: &'a Cell<u64>,
}

fn unsupported() -> io::Error {
    io::Error::from(io::ErrorKind::Unsupported)
}

fn fault() -> io::Error {
    io::Error::from(io::ErrorKind::Other)
}

impl Read for Parts<'_> {
    fn read(&mut self, buffer: &mut [u8]) -> io::Result<usize> {
        let [answer, left @ ..] = self.answers else {
            return Ok(0);
        };
        self.answers = left;
        match answer {
            Answer::Gives(bytes) => {
                let count = bytes.len().min(buffer.len());
                buffer[..count].copy_from_slice(&bytes[..count]);
                Ok(count)
            }
            Answer::Interrupted => Err(io::Error::from(io::ErrorKind::Interrupted)),
            Answer::Fault => Err(fault()),
        }
    }
}

impl Write for Parts<'_> {
    fn write(&mut self, buffer: &[u8]) -> io::Result<usize> {
        let count = buffer.len().min(self.room).min(2);
        if count == 0 && self.is_full_an_error {
            return Err(fault());
        }
        for byte in &buffer[..count] {
            let taken = self.taken.get().wrapping_mul(256);
            self.taken.set(taken.wrapping_add(u64::from(*byte)));
        }
        self.room -= count;
        Ok(count)
    }

    fn flush(&mut self) -> io::Result<()> {
        if self.can_flush { Ok(()) } else { Err(fault()) }
    }
}

impl Seek for Parts<'_> {
    fn seek(&mut self, _to: SeekFrom) -> io::Result<u64> {
        Err(unsupported())
    }
}

impl OpenFile for Parts<'_> {
    fn metadata(&self) -> io::Result<Metadata> {
        Err(unsupported())
    }

    fn set_len(&self, _size: u64) -> io::Result<()> {
        Err(unsupported())
    }

    fn sync_all(&self) -> io::Result<()> {
        Err(unsupported())
    }

    fn sync_data(&self) -> io::Result<()> {
        Err(unsupported())
    }
}

impl<'a> Files for Parts<'a> {
    type File = Parts<'a>;

    type Dir = Parts<'a>;

    fn open_file(&self, how: &OpenOptions, _path: &str) -> io::Result<Parts<'a>> {
        how.check()?;
        Ok(Parts {
            answers: self.answers,
            room: self.room,
            is_full_an_error: self.is_full_an_error,
            can_flush: self.can_flush,
            taken: self.taken,
        })
    }

    fn open_dir(&self, _path: &str) -> io::Result<Parts<'a>> {
        Err(unsupported())
    }

    fn metadata(&self, _path: &str) -> io::Result<Metadata> {
        Err(unsupported())
    }

    fn symlink_metadata(&self, _path: &str) -> io::Result<Metadata> {
        Err(unsupported())
    }

    fn copy(&self, _from: &str, _to: &str) -> io::Result<u64> {
        Err(unsupported())
    }

    fn rename(&self, _from: &str, _to: &str) -> io::Result<()> {
        Err(unsupported())
    }

    fn remove_file(&self, _path: &str) -> io::Result<()> {
        Err(unsupported())
    }

    fn create_dir(&self, _path: &str) -> io::Result<()> {
        Err(unsupported())
    }

    fn remove_dir(&self, _path: &str) -> io::Result<()> {
        Err(unsupported())
    }

    fn remove_dir_all<B: Allocator>(&self, _alloc: B, _path: &str) -> io::Result<()> {
        Err(unsupported())
    }
}
