// A system of one file, which lies in memory.

use std::alloc::Allocator;
use std::fs::{Files, Metadata, OpenFile, OpenOptions};
use std::io;
use std::io::{ErrorKind, Read, Seek, SeekFrom, Write};

/// How many bytes the file may have, which are eight blocks.
const ROOM: u64 = 4096;

/// Opens a file that is empty, whatever its name is, or none where it may not be read. One write of the file fails, counted from 1.
#[derive(Drop)]
pub struct System {
    pub may_read: bool,
    pub fails: usize,
}

/// A file that takes and gives one byte at a time.
#[derive(Drop)]
pub struct Disk {
    bytes: [u8; 4096],
    at: usize,
    writes: usize,
    fails: usize,
}

/// A folder without names.
#[derive(Drop)]
pub struct NoNames;

/// What the system doesn't do.
fn unsupported() -> io::Error {
    io::Error::from(ErrorKind::Unsupported)
}

impl Read for Disk {
    fn read(&mut self, buf: &mut [u8]) -> io::Result<usize> {
        match (buf.get_mut(0), self.bytes.get(self.at)) {
            (Some(place), Some(byte)) => {
                *place = *byte;
                self.at = self.at.saturating_add(1);
                Ok(1)
            }
            _ => Ok(0),
        }
    }
}

impl Write for Disk {
    fn write(&mut self, buf: &[u8]) -> io::Result<usize> {
        self.writes = self.writes.saturating_add(1);
        if self.writes == self.fails {
            return Err(io::Error::from(ErrorKind::StorageFull));
        }
        match (buf.first(), self.bytes.get_mut(self.at)) {
            (Some(byte), Some(place)) => {
                *place = *byte;
                self.at = self.at.saturating_add(1);
                Ok(1)
            }
            _ => Ok(0),
        }
    }

    fn flush(&mut self) -> io::Result<()> {
        Ok(())
    }
}

impl Seek for Disk {
    fn seek(&mut self, to: SeekFrom) -> io::Result<u64> {
        match to {
            SeekFrom::Start(at) if at <= ROOM => {
                self.at = at as usize;
                Ok(at)
            }
            _ => Err(io::Error::from(ErrorKind::InvalidInput)),
        }
    }
}

impl OpenFile for Disk {
    fn metadata(&self) -> io::Result<Metadata> {
        Err(unsupported())
    }

    fn set_len(&self, _size: u64) -> io::Result<()> {
        Err(unsupported())
    }

    fn sync_all(&self) -> io::Result<()> {
        Ok(())
    }

    fn sync_data(&self) -> io::Result<()> {
        Ok(())
    }
}

impl Read for NoNames {
    fn read(&mut self, _buf: &mut [u8]) -> io::Result<usize> {
        Ok(0)
    }
}

impl Files for System {
    type File = Disk;

    type Dir = NoNames;

    fn open_file(&self, _how: &OpenOptions, _path: &str) -> io::Result<Disk> {
        if !self.may_read {
            return Err(io::Error::from(ErrorKind::PermissionDenied));
        }
        Ok(Disk {
            bytes: [0; 4096],
            at: 0,
            writes: 0,
            fails: self.fails,
        })
    }

    fn open_dir(&self, _path: &str) -> io::Result<NoNames> {
        Ok(NoNames)
    }

    fn metadata(&self, _path: &str) -> io::Result<Metadata> {
        Err(unsupported())
    }

    fn symlink_metadata(&self, _path: &str) -> io::Result<Metadata> {
        Err(unsupported())
    }

    fn copy(&self, _from: &str, _to: &str) -> io::Result<u64> {
        Err(unsupported())
    }

    fn rename(&self, _from: &str, _to: &str) -> io::Result<()> {
        Err(unsupported())
    }

    fn remove_file(&self, _path: &str) -> io::Result<()> {
        Err(unsupported())
    }

    fn create_dir(&self, _path: &str) -> io::Result<()> {
        Err(unsupported())
    }

    fn remove_dir(&self, _path: &str) -> io::Result<()> {
        Err(unsupported())
    }

    fn remove_dir_all<B: Allocator>(&self, _alloc: B, _path: &str) -> io::Result<()> {
        Err(unsupported())
    }
}
