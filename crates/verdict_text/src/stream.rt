// What a text is read from and what its answer is written to: std's reader and writer, each beside what its calls answered.
ghost use Rattle.std.specs.Prelude.{◌≡◌, ℕ, List, Option};
ghost use Rattle.std.specs.Io.{ReadsAtMost, WritesAtMost};
ghost use Rattle.std.specs.Io.KnownBytes.{ReadConsumes, WriteAppends};
ghost use Rattle.verdict_text.specs.declared.stream.Calls.{Calls};
ghost use Rattle.verdict_text.specs.Calls.{is_interruption, no_calls, noted};

use std::io::{self, ErrorKind, Read, Write};

// std's own traits say nothing of when a call fails: under them a program that reports a failure and calls nothing cannot be told from one
// whose call failed.

/// What the calls of a reader or of a writer answered.
#[derive(Clone, Copy)]
pub struct Calls {
    /// What the last one answered; `None` before the first.
    pub last: Option<io::Result<usize>>,
    /// How many of them, the last one among them, a signal interrupted one after the other. It stays at 2^64 - 1.
    pub interrupted: u64,
}

impl Calls {
    /// Before the first call.
    pub fn new() -> Calls
        ensures { result ≡ no_calls }
    {
        Calls {
            last: None,
            interrupted: 0,
        }
    }

    /// With one call more, which answered this.
    pub fn note(self, answer: io::Result<usize>) -> Calls
        ensures { result ≡ noted answer self }
    {
        let interrupted = if is_interruption(&answer) {
            self.interrupted.saturating_add(1)
        } else {
            0
        };
        Calls {
            last: Some(answer),
            interrupted,
        }
    }
}

/// Whether a signal interrupted the call that answered this.
pub fn is_interruption(answer: &io::Result<usize>) -> bool
    ensures { result ≡ is_interruption answer.now }
{
    match answer {
        Ok(_) => false,
        Err(error) => matches!(error.kind(), ErrorKind::Interrupted),
    }
}

/// What a text is read from.
pub trait Source {
    // The bytes that reads will give from here on, where they are known.
    ghost remaining: { Self → Option (List ℕ) };

    ghost calls: { Self → Calls };

    /// Reads some bytes to the start of `buffer` and tells how many, none only where there are no more or the buffer has no room.
    fn read(&mut self, buffer: &mut [u8]) -> io::Result<usize>
        ensures bound { ReadsAtMost result buffer.new }
        ensures bytes { ReadConsumes (remaining self.old) (remaining self.new) result buffer.new }
        ensures calls { calls self.new ≡ noted result (calls self.old) };
}

/// What an answer is written to.
pub trait Sink {
    // The bytes that it holds, where they are known.
    ghost contents: { Self → Option (List ℕ) };

    ghost calls: { Self → Calls };

    /// Takes some of the bytes, from the first on, and tells how many.
    fn write(&mut self, bytes: &[u8]) -> io::Result<usize>
        ensures bound { WritesAtMost result bytes.now }
        ensures bytes { WriteAppends (contents self.old) (contents self.new) result bytes.now }
        ensures calls { calls self.new ≡ noted result (calls self.old) };
}

/// A reader of std as a source.
#[derive(Drop)]
pub struct Reader<R> {
    pub reader: R,
    pub calls: Calls,
}

impl<R> Reader<R> {
    /// A reader that was not called yet.
    pub fn new(reader: R) -> Reader<R>
        ensures { result ≡ record { reader = reader; calls = no_calls } }
    {
        Reader {
            reader,
            calls: Calls::new(),
        }
    }
}

impl<R: Read> Source for Reader<R> {
    ghost remaining = { λ r. R.remaining r.reader };

    ghost calls = { λ r. r.calls };

    fn read(&mut self, buffer: &mut [u8]) -> io::Result<usize> {
        let answer = self.reader.read(buffer);
        self.calls = self.calls.note(answer);
        answer
    }
}

/// A writer of std as a sink.
#[derive(Drop)]
pub struct Writer<W> {
    pub writer: W,
    pub calls: Calls,
}

impl<W> Writer<W> {
    /// A writer that was not called yet.
    pub fn new(writer: W) -> Writer<W>
        ensures { result ≡ record { writer = writer; calls = no_calls } }
    {
        Writer {
            writer,
            calls: Calls::new(),
        }
    }
}

impl<W: Write> Sink for Writer<W> {
    ghost contents = { λ w. W.contents w.writer };

    ghost calls = { λ w. w.calls };

    fn write(&mut self, bytes: &[u8]) -> io::Result<usize> {
        let answer = self.writer.write(bytes);
        self.calls = self.calls.note(answer);
        answer
    }
}
