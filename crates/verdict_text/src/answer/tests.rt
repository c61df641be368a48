// What a run leaves where a read or a write fails, or stops short. The store and its answer are those of the program's own files.
use super::*;
use crate::stream::{Reader, Writer};
use std::io::{Cursor, Read, Write};

const MARK: &[u8] = b"00\n";

const FIRST: &[u8] =
    b"0c0001000000000000000100000000000000111111110000000000000000000000000200000000000000000000000000000000000000000000000000000000000000000000\n";

const SECOND: &[u8] =
    b"0c0002000000000000000200000000000000222222223333333300000000000000000401000000000000000000000000000000004444444400000000000000000000000000\n";

const ANSWER: &[u8] = b"00010001\n00010003\n020100000001000000\n";

#[derive(Clone, Copy)]
enum Step {
    Gives(&'static [u8]),
    Fails(ErrorKind),
}

// A reader that takes a step a read, and is then at its end.
#[derive(Drop)]
struct Steps<'a>(&'a [Step]);

impl Read for Steps<'_> {
    fn read(&mut self, buffer: &mut [u8]) -> io::Result<usize> {
        let Some((step, others)) = self.0.split_first() else {
            return Ok(0);
        };
        self.0 = others;
        match *step {
            Step::Gives(bytes) => {
                let mut piece = bytes;
                piece.read(buffer)
            }
            Step::Fails(kind) => Err(kind.into()),
        }
    }
}

// A writer that takes a byte a write, after a signal, and has room for so many.
#[derive(Drop)]
struct Room {
    taken: Vec<u8>,
    room: usize,
    interrupted: bool,
}

impl Write for Room {
    fn write(&mut self, bytes: &[u8]) -> io::Result<usize> {
        self.interrupted = !self.interrupted;
        if self.interrupted {
            return Err(ErrorKind::Interrupted.into());
        }
        if self.taken.len() >= self.room {
            return Err(ErrorKind::StorageFull.into());
        }
        let next = &bytes[..bytes.len().min(1)];
        self.taken.extend_from_slice(next)?;
        Ok(next.len())
    }

    fn flush(&mut self) -> io::Result<()> {
        Ok(())
    }
}

// The kind of the read that failed.
fn read_failure(answered: Result<(), AnswerError>) -> Option<ErrorKind> {
    match answered {
        Err(AnswerError::Read(error)) => Some(error.kind()),
        _ => None,
    }
}

fn write_failure(answered: Result<(), AnswerError>) -> Option<ErrorKind> {
    match answered {
        Err(AnswerError::Write(error)) => Some(error.kind()),
        _ => None,
    }
}

#[test]
fn answers_a_text_in_pieces(rt: HostRuntime) {
    let steps = [
        Step::Gives(MARK),
        Step::Fails(ErrorKind::Interrupted),
        Step::Gives(FIRST),
        Step::Gives(SECOND),
    ];
    let mut sink = Writer::new(Vec::new(rt.alloc()));
    assert!(rt; answer(&mut Reader::new(Steps(&steps)), &mut sink).is_ok());
    assert_eq!(rt; sink.writer.as_slice(), ANSWER);
}

// Without the third line the text is a good store too.
#[test]
fn judges_nothing_where_a_read_fails(rt: HostRuntime) {
    let steps = [
        Step::Gives(MARK),
        Step::Gives(FIRST),
        Step::Fails(ErrorKind::ConnectionReset),
        Step::Gives(SECOND),
    ];
    let mut sink = Writer::new(Vec::new(rt.alloc()));
    let result = answer(&mut Reader::new(Steps(&steps)), &mut sink);
    assert_eq!(rt; read_failure(result), Some(ErrorKind::ConnectionReset));
    assert_eq!(rt; sink.writer.len(), 0);
}

// The read that asks whether the text goes on.
#[test]
fn asks_behind_a_full_buffer(rt: HostRuntime) {
    let text = [0u8; 65536];
    let fails = [Step::Fails(ErrorKind::ConnectionReset)];
    let mut sink = Writer::new(Vec::new(rt.alloc()));
    let mut source = Reader::new(text.as_slice().chain(Steps(&fails)));
    let result = answer(&mut source, &mut sink);
    assert_eq!(rt; read_failure(result), Some(ErrorKind::ConnectionReset));
    assert_eq!(rt; sink.writer.len(), 0);
    let more = [Step::Gives(b"0"), Step::Fails(ErrorKind::ConnectionReset)];
    let mut source = Reader::new(text.as_slice().chain(Steps(&more)));
    assert!(rt; answer(&mut source, &mut sink).is_ok());
    assert_eq!(rt; sink.writer.as_slice(), b"R11\n".as_slice());
}

#[test]
fn tells_a_write_that_fails(rt: HostRuntime) {
    let mut sink = Writer::new(Room {
        taken: Vec::new(rt.alloc()),
        room: 3,
        interrupted: false,
    });
    let steps = [Step::Gives(MARK)];
    let result = answer(&mut Reader::new(Steps(&steps)), &mut sink);
    assert_eq!(rt; write_failure(result), Some(ErrorKind::StorageFull));
    assert_eq!(rt; sink.writer.taken.as_slice(), b"R08".as_slice());
    sink.writer.room = 7;
    assert!(rt; answer(&mut Reader::new(Steps(&steps)), &mut sink).is_ok());
    assert_eq!(rt; sink.writer.taken.as_slice(), b"R08R08\n".as_slice());
}

// A writer that takes nothing.
#[test]
fn tells_a_write_of_nothing(rt: HostRuntime) {
    let mut sink = Writer::new(Cursor::new([0u8; 3]));
    let result = answer(&mut Reader::new(Steps(&[Step::Gives(MARK)])), &mut sink);
    assert_eq!(rt; write_failure(result), Some(ErrorKind::WriteZero));
    assert_eq!(rt; sink.writer.get_ref().as_slice(), b"R08".as_slice());
}
