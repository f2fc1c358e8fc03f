//! The adapters: files and streams of the system as a store, a source and sinks. They tell no contents and count their
//! faults.
ghost use Rattle.std.specs.Prelude.{None};

use crate::replace::write_file;
use cw_io::{Failed, Sink, Source, Store, StoreFault};
use std::fs;
use std::io::{ErrorKind, Read, Write};
use std::os::unix::fs::FileExt;

/// The files of the system.
#[derive(Drop)]
pub struct Files<'a> {
    rt: &'a HostRuntime,
    faults: u64,
    absences: u64,
}

impl<'a> Files<'a> {
    /// Files of which none has failed yet.
    pub fn new(rt: &'a HostRuntime) -> Files<'a> {
        Files {
            rt,
            faults: 0,
            absences: 0,
        }
    }
}

impl Store for Files<'_> {
    ghost file = { λ _ _. None };

    ghost faults = { λ files. files.faults };

    ghost absences = { λ files. files.absences };

    fn read_part(&mut self, name: &str, at: u64, buf: &mut [u8]) -> Result<usize, StoreFault> {
        match fs::open(self.rt, name) {
            Ok(file) => match file.read_at(buf, at) {
                Ok(count) => Ok(count),
                Err(_) => {
                    self.faults = self.faults.saturating_add(1);
                    Err(StoreFault::Failed)
                }
            },
            Err(error) if error.kind() == ErrorKind::NotFound => {
                self.absences = self.absences.saturating_add(1);
                Err(StoreFault::Missing)
            }
            Err(_) => {
                self.faults = self.faults.saturating_add(1);
                Err(StoreFault::Failed)
            }
        }
    }

    fn write_all(&mut self, name: &str, bytes: &[u8]) -> Result<(), StoreFault> {
        match write_file(self.rt, name, bytes) {
            Ok(()) => Ok(()),
            Err(_) => {
                self.faults = self.faults.saturating_add(1);
                Err(StoreFault::Failed)
            }
        }
    }
}

/// A source over any reader, or a sink over any writer. A write that takes no byte of some is a fault.
#[derive(Drop)]
pub struct Stream<T> {
    inner: T,
    faults: u64,
}

impl<T> Stream<T> {
    /// One of which no read and no write has failed yet.
    pub fn new(inner: T) -> Stream<T> {
        Stream { inner, faults: 0 }
    }
}

impl<R: Read> Source for Stream<R> {
    ghost left = { λ _. None };

    ghost faults = { λ stream. stream.faults };

    fn read(&mut self, buf: &mut [u8]) -> Result<usize, Failed> {
        match self.inner.read(buf) {
            Ok(count) => Ok(count),
            Err(_) => {
                self.faults = self.faults.saturating_add(1);
                Err(Failed)
            }
        }
    }
}

impl<W: Write> Sink for Stream<W> {
    ghost held = { λ _. None };

    ghost faults = { λ stream. stream.faults };

    fn write(&mut self, piece: &[u8]) -> Result<usize, Failed> {
        match self.inner.write(piece) {
            Ok(count) if count > 0 || piece.is_empty() => Ok(count),
            _ => {
                self.faults = self.faults.saturating_add(1);
                Err(Failed)
            }
        }
    }
}

#[cfg(test)]
mod tests {
    use super::*;
    use std::io;

    // A reader and a writer that fail at each call.
    #[derive(Drop)]
    struct Broken;

    impl Read for Broken {
        fn read(&mut self, _buf: &mut [u8]) -> io::Result<usize> {
            Err(io::Error::from(ErrorKind::Other))
        }
    }

    impl Write for Broken {
        fn write(&mut self, _buf: &[u8]) -> io::Result<usize> {
            Err(io::Error::from(ErrorKind::Other))
        }

        fn flush(&mut self) -> io::Result<()> {
            Ok(())
        }
    }

    #[test]
    fn a_missing_file_is_an_absence(rt: HostRuntime) {
        let mut files = Files::new(&rt);
        let mut buf = [0u8; 4];
        let read = files.read_part("no such file", 0, &mut buf);
        assert!(&rt; matches!(read, Err(StoreFault::Missing)));
        assert_eq!(&rt; (files.faults, files.absences), (0, 1));
    }

    #[test]
    fn a_file_is_written_anew(rt: HostRuntime) -> io::Result<()> {
        let mut files = Files::new(&rt);
        let mut buf = [0u8; 8];
        assert!(&rt; files.write_all("written.tmp", b"abcdef").is_ok());
        assert!(&rt; files.write_all("written.tmp", b"xyz").is_ok());
        let read = files.read_part("written.tmp", 0, &mut buf);
        assert!(&rt; matches!(read, Ok(3)));
        assert_eq!(&rt; buf, *b"xyz\0\0\0\0\0");
        assert!(&rt;
            files
                .write_all("no such folder/written.tmp", b"xyz")
                .is_err()
        );
        assert_eq!(&rt; (files.faults, files.absences), (1, 0));
        fs::remove_file(&rt, "written.tmp")
    }

    #[test]
    fn reading_gives_the_bytes_and_counts_faults(rt: HostRuntime) {
        let mut buf = [0u8; 4];
        let mut reading = Stream::new(b"abcdef".as_slice());
        assert!(&rt; matches!(reading.read(&mut buf), Ok(4)));
        assert_eq!(&rt; (buf, reading.faults), (*b"abcd", 0));
        let mut broken = Stream::new(Broken);
        assert!(&rt; broken.read(&mut buf).is_err());
        assert_eq!(&rt; broken.faults, 1);
    }

    #[test]
    fn writing_takes_the_bytes_and_counts_faults(rt: HostRuntime) {
        let mut writing = Stream::new(io::sink());
        assert!(&rt; matches!(writing.write(b"abc"), Ok(3)));
        assert_eq!(&rt; writing.faults, 0);
        let mut broken = Stream::new(Broken);
        assert!(&rt; broken.write(b"abc").is_err());
        assert_eq!(&rt; broken.faults, 1);
    }
}
