//! The standard streams of the process, and files. They tell nothing of their bytes, and contracts
//! see of each its count of faults.
ghost use Rattle.std.specs.Prelude.{◌≡◌, None};

use crate::outside::{Failed, Sink, Source};
use std::fs;
use std::io::{self, BufRead, Printer, Read, Write};
use std::marker::Model;
use std::rt::Files;

/// The standard input.
#[derive(Drop)]
pub struct StdinSource<R: BufRead + Drop> {
    reader: R,
    faults: u64,
}

impl<R: BufRead + Drop> Model for StdinSource<R> {
    ghost use Rattle.std.specs.Prelude.{ℕ};

    ghost Value = { ℕ };

    ghost view = { λ s. s.faults };
}

impl<R: BufRead + Drop> StdinSource<R> {
    /// The standard input of this runtime.
    pub fn new<I: Input<Reader = R>>(rt: &I) -> Self
        ensures { result ≡ 0 }
    {
        StdinSource {
            reader: rt.reader(),
            faults: 0,
        }
    }
}

impl<R: BufRead + Drop> Source for StdinSource<R> {
    ghost faults = { λ s. s };

    ghost left = { λ s. None };

    fn read(&mut self, into: &mut [u8]) -> Result<usize, Failed> {
        match self.reader.read(into) {
            Ok(count) => Ok(count),
            Err(_) => Err(Failed::count_in(&mut self.faults)),
        }
    }
}

/// A file, from its beginning.
#[derive(Drop)]
pub struct FileSource<F: Read + Drop> {
    /// The open file, or `None` where it could not be opened: then each read fails.
    file: Option<F>,
    faults: u64,
}

impl<F: Read + Drop> Model for FileSource<F> {
    ghost use Rattle.std.specs.Prelude.{ℕ};

    ghost Value = { ℕ };

    ghost view = { λ s. s.faults };
}

impl<F: Read + Drop> FileSource<F> {
    /// The file with this path. One that cannot be opened fails at its first read.
    pub fn new<R: Files<File = F>>(rt: &R, path: &str) -> Self
        ensures { result ≡ 0 }
    {
        FileSource {
            file: fs::open(rt, path).ok(),
            faults: 0,
        }
    }
}

impl<F: Read + Drop> Source for FileSource<F> {
    ghost faults = { λ s. s };

    ghost left = { λ s. None };

    fn read(&mut self, into: &mut [u8]) -> Result<usize, Failed> {
        if let Some(file) = &mut self.file
            && let Ok(count) = file.read(into)
        {
            return Ok(count);
        }
        Err(Failed::count_in(&mut self.faults))
    }
}

/// The standard output.
#[derive(Drop)]
pub struct StdoutSink<'a, P: Print> {
    printer: Printer<'a, P>,
    faults: u64,
}

impl<'a, P: Print> Model for StdoutSink<'a, P> {
    ghost use Rattle.std.specs.Prelude.{ℕ};

    ghost Value = { ℕ };

    ghost view = { λ s. s.faults };
}

impl<'a, P: Print> StdoutSink<'a, P> {
    /// The standard output of this runtime.
    pub fn new(rt: &'a P) -> Self
        ensures { result ≡ 0 }
    {
        StdoutSink {
            printer: io::writer(rt),
            faults: 0,
        }
    }
}

impl<P: Print> Sink for StdoutSink<'_, P> {
    ghost faults = { λ s. s };

    ghost written = { λ s. None };

    fn write(&mut self, from: &[u8]) -> Result<usize, Failed> {
        match self.printer.write(from) {
            Ok(0) | Err(_) => Err(Failed::count_in(&mut self.faults)),
            Ok(count) => Ok(count),
        }
    }
}
