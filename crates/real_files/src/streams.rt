//! The source over any reader and the sink over any writer.
//!
//! What a real stream holds isn't told: at standard input and standard output `remaining` and
//! `contents` are None. Each error of the stream is counted as one fault.
ghost use Rattle.std.specs.Prelude.{◌≡◌};

use outside::{Failed, Sink, Source};
use std::io::{Read, Write};

/// A source over a reader.
#[derive(Drop)]
pub struct Input<R: Read + Drop> {
    reader: R,
    faults: u64,
}

impl<R: Read + Drop> Input<R> {
    /// What the reader gives, with no fault counted yet.
    pub fn new(reader: R) -> Input<R>
        ensures reader { result.reader ≡ reader }
        ensures faults { result.faults ≡ 0 }
    {
        Input { reader, faults: 0 }
    }
}

impl<R: Read + Drop> Source for Input<R> {
    ghost left = { λ source. R.remaining source.reader };

    ghost faults = { λ source. source.faults };

    fn take(&mut self, buf: &mut [u8]) -> Result<usize, Failed> {
        match self.reader.read(buf) {
            Ok(count) => Ok(count),
            Err(_) => {
                self.faults = self.faults.saturating_add(1);
                Err(Failed)
            }
        }
    }
}

/// A sink over a writer. A write of no byte counts as a fault, so that writing ends.
#[derive(Drop)]
pub struct Output<W: Write + Drop> {
    writer: W,
    faults: u64,
}

impl<W: Write + Drop> Output<W> {
    /// What goes to the writer, with no fault counted yet.
    pub fn new(writer: W) -> Output<W>
        ensures writer { result.writer ≡ writer }
        ensures faults { result.faults ≡ 0 }
    {
        Output { writer, faults: 0 }
    }
}

impl<W: Write + Drop> Sink for Output<W> {
    ghost held = { λ sink. W.contents sink.writer };

    ghost faults = { λ sink. sink.faults };

    fn put(&mut self, bytes: &[u8]) -> Result<usize, Failed> {
        match self.writer.write(bytes) {
            Ok(count) if count > 0 || bytes.is_empty() => Ok(count),
            _ => {
                self.faults = self.faults.saturating_add(1);
                Err(Failed)
            }
        }
    }
}
