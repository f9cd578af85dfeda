//! Files and the standard streams as inputs and sinks. They tell nothing of what they hold.
ghost use Rattle.std.specs.Prelude.{◌≡◌, false, []};

use outside_io::{Failed, Inputs, Sink};
use std::fs;
use std::io::{Read, Write};
use std::rt::Files;

/// The name of standard input.
const STANDARD: &str = "-";

// What is being read.
#[derive(Drop)]
enum Current<F, S> {
    Nothing,
    File(F),
    Standard(S),
}

/// Files by their paths, and standard input.
#[derive(Drop)]
pub struct StdInputs<'a, R: Files + Input> {
    rt: &'a R,
    current: Current<R::File, R::Reader>,
    given: u64,
    faults: u64,
}

impl<'a, R: Files + Input> StdInputs<'a, R> {
    /// Nothing is begun yet, and no call has failed.
    pub fn new(rt: &'a R) -> Self
        ensures given { result.given ≡ 0 }
        ensures faults { result.faults ≡ 0 }
    {
        StdInputs {
            rt,
            current: Current::Nothing,
            given: 0,
            faults: 0,
        }
    }
}

impl<R: Files + Input> Inputs for StdInputs<'_, R> {
    ghost tells = { false };

    ghost texts = { λ _. [] };

    ghost rest = { λ _. [] };

    ghost strays = { λ _. 0 };

    ghost given = { λ s. s.given };

    ghost faults = { λ s. s.faults };

    fn begin(&mut self, name: &str) -> Result<(), Failed> {
        self.given = 0;
        self.current = Current::Nothing;
        if name == STANDARD {
            self.current = Current::Standard(self.rt.reader());
            return Ok(());
        }
        match fs::open(self.rt, name) {
            Ok(file) => {
                self.current = Current::File(file);
                Ok(())
            }
            Err(_) => {
                self.faults = self.faults.saturating_add(1);
                Err(Failed)
            }
        }
    }

    fn read(&mut self, into: &mut [u8]) -> Result<usize, Failed> {
        let read = match &mut self.current {
            Current::Nothing => Ok(0),
            Current::File(file) => file.read(into),
            Current::Standard(reader) => reader.read(into),
        };
        match read {
            Ok(count) => {
                self.given = self.given.saturating_add(count as u64);
                Ok(count)
            }
            Err(_) => {
                self.faults = self.faults.saturating_add(1);
                Err(Failed)
            }
        }
    }
}

/// A standard stream, flushed at each write.
#[derive(Drop)]
pub struct StdSink<W: Write + Drop> {
    stream: W,
    faults: u64,
}

impl<W: Write + Drop> StdSink<W> {
    /// The stream, on which no call has failed yet.
    pub fn new(stream: W) -> Self
        ensures faults { result.faults ≡ 0 }
    {
        StdSink { stream, faults: 0 }
    }
}

impl<W: Write + Drop> Sink for StdSink<W> {
    ghost tells = { false };

    ghost written = { λ _. [] };

    ghost faults = { λ s. s.faults };

    fn write(&mut self, bytes: &[u8]) -> Result<usize, Failed> {
        if bytes.is_empty() {
            return Ok(0);
        }
        if let Ok(count) = self.stream.write(bytes) {
            if count > 0 && self.stream.flush().is_ok() {
                return Ok(count);
            }
        }
        self.faults = self.faults.saturating_add(1);
        Err(Failed)
    }
}
