// The answer to a text, and reading the one and writing the other.
ghost use Rattle.std.specs.Prelude.{◌≡◌, ◌≢◌, ◌+◌, ◌*◌, ◌≤◌, length, take, Some, Ok, IfOk, IfErr, MatchResult};
ghost use Rattle.std.specs.IoError.{error_kind};
ghost use Rattle.std.specs.Io.{ReadsAtMost, WritesAtMost};
ghost use Rattle.std.specs.Io.KnownBytes.{Appends, ReadConsumes, WriteAppends};
ghost use Rattle.judge.specs.Judge.{most_pairs};
ghost use Rattle.judge.specs.Frames.{verdict_width};
ghost use Rattle.verdict_text.specs.Calls.{Failed, WriteFailed};
ghost use Rattle.verdict_text.specs.Answer.{refusal_number, is_long, judged, response_length, response_over, Left, Written, Reported, cause, LosesFewer, AppendsFront};
ghost use Rattle.verdict_text.specs.Steps.{Fills, Reads};

use crate::read::{FRAMES, read_store};
use crate::stream::{Sink, Source, is_interruption};
use crate::write::{LAST_LINE, VERDICT_LINE, put_judgement, put_refusal};
use judge::frames::{FRAME, VERDICT, judge};
use judge::verdict::{JudgeError, Judgement, MOST_PAIRS};
use std::fmt;
use std::io::{self, ErrorKind};

// No heap: one buffer has the room of the longest text, the others that of the most pairs of a judgement, and beside each goes how many of
// its bytes count.

/// The longest text that is judged.
const LONGEST: usize = 65536;

/// The room that the verdicts of a judgement and the answer take.
const VERDICTS: usize = MOST_PAIRS * VERDICT;

/// The room that the longest answer takes: 1,027 bytes.
pub const ROOM: usize = MOST_PAIRS * VERDICT_LINE + LAST_LINE;

/// Why a text is not judged.
#[derive(Clone, Copy)]
pub enum Refusal {
    /// It has more bytes than are judged.
    LongText,
    /// A line of another length or with another character, one that is not ended, no mark or a wrong one.
    BadLine,
    Judge(JudgeError),
}

impl Refusal {
    /// The number that is printed.
    pub fn number(self) -> u8
        ensures { result ≡ refusal_number self }
    {
        // A row a case: a case that holds an error is no number by a cast.
        match self {
            Refusal::LongText => 11,
            Refusal::BadLine => 10,
            Refusal::Judge(error) => error.number(),
        }
    }
}

/// Why there is no answer, or not the whole of it.
#[derive(Clone, Copy, Debug)]
pub enum AnswerError {
    /// A read failed. Nothing was written.
    Read(io::Error),
    /// A write failed. The writer has taken a front of the answer.
    Write(io::Error),
}

impl fmt::Display for AnswerError {
    fn fmt<W: fmt::Write>(&self, f: &mut fmt::Formatter<W>) -> fmt::Result {
        match self {
            AnswerError::Read(error) => write!(f, "the input could not be read: {error}"),
            AnswerError::Write(error) => write!(f, "the answer could not be written: {error}"),
        }
    }
}

/// Writes the answer to the text that `source` has left. Of a longer text the byte past the longest is read, and none after it. A call that
/// a signal interrupts is made again, and a write that takes nothing is a failure. An error is one that a call answered, or `TimedOut` where a
/// signal interrupted 2^64 - 1 calls in a row: no memory is asked for, and nothing else can fail.
pub fn answer<S: Source, K: Sink>(source: &mut S, sink: &mut K) -> Result<(), AnswerError>
    ensures left { Left (S.remaining source.old) (S.remaining source.new) result }
    ensures written { Written (S.remaining source.old) (K.contents sink.old) (K.contents sink.new) result }
    ensures reported { Reported (S.calls source.new) (K.calls sink.new) result }
    ensures retried { IfErr result (λ e. error_kind (cause e) ≢ ErrorKind.Interrupted) }
{
    let mut text = [0u8; LONGEST];
    let (held, more) = match read_text(source, &mut text) {
        Ok(read) => read,
        Err(error) => return Err(AnswerError::Read(error)),
    };
    let mut response = [0u8; ROOM];
    let Some(length) = respond(&text[..held], more, &mut response) else {
        unreachable!()
    };
    match put(sink, &response[..length]) {
        Ok(()) => Ok(()),
        Err(error) => Err(AnswerError::Write(error)),
    }
}

// Fills `text`, and tells how many bytes it holds and whether more follow.
fn read_text<S: Source>(source: &mut S, text: &mut [u8]) -> io::Result<(usize, bool)>
    ensures bound { IfOk result (λ read. read.0 ≤ length text.new) }
    ensures bytes { MatchResult result (λ read. Reads (S.remaining source.old) (S.remaining source.new) read.0 read.1 text.new)
        (λ _. LosesFewer (length text.old + 1) (S.remaining source.old) (S.remaining source.new)) }
    ensures failed { IfErr result (λ e. Failed (S.calls source.new) e) }
{
    let held = fill(source, text)?;
    if held < text.len() {
        return Ok((held, false));
    }
    let mut next = [0u8; 1];
    let more = fill(source, &mut next)? == 1;
    Ok((held, more))
}

// By how many bytes are held, here and in `put`: each call tells how many it gave or took, and a loop without that number would cut the
// rest off a slice that is lent to it, no plainer.

// Reads until `buffer` is full or the source ends, and tells how many bytes stand at its start.
fn fill<S: Source>(source: &mut S, buffer: &mut [u8]) -> io::Result<usize>
    ensures bound { ReadsAtMost result buffer.new }
    ensures bytes { MatchResult result (λ n. Fills (S.remaining source.old) (S.remaining source.new) n buffer.new)
        (λ _. LosesFewer (length buffer.old) (S.remaining source.old) (S.remaining source.new)) }
    ensures failed { IfErr result (λ e. Failed (S.calls source.new) e) }
{
    let mut held = 0;
    while held < buffer.len() {
        match read_some(source, &mut buffer[held..])? {
            0 => return Ok(held),
            n => held += n,
        }
    }
    Ok(held)
}

// One read, made again where a signal interrupts it, 2^64 - 1 times at most. Not one function with `write_some`: it would take the call as
// a closure, whose contract would be that of `read` or of `write` once more.
fn read_some<S: Source>(source: &mut S, buffer: &mut [u8]) -> io::Result<usize>
    ensures bound { ReadsAtMost result buffer.new }
    ensures bytes { ReadConsumes (S.remaining source.old) (S.remaining source.new) result buffer.new }
    ensures failed { IfErr result (λ e. Failed (S.calls source.new) e) }
{
    for _ in 0..u64::MAX {
        let answer = source.read(buffer);
        if !is_interruption(&answer) {
            return answer;
        }
    }
    Err(ErrorKind::TimedOut.into())
}

// Writes all of `bytes`.
fn put<K: Sink>(sink: &mut K, bytes: &[u8]) -> io::Result<()>
    ensures bytes { MatchResult result (λ _. Appends (K.contents sink.old) (K.contents sink.new) bytes.now)
        (λ _. AppendsFront (K.contents sink.old) (K.contents sink.new) bytes.now) }
    ensures failed { IfErr result (λ e. WriteFailed (K.calls sink.new) e) }
{
    let mut done = 0;
    while done < bytes.len() {
        match write_some(sink, &bytes[done..])? {
            0 => return Err(ErrorKind::WriteZero.into()),
            n => done += n,
        }
    }
    Ok(())
}

// One write, made again where a signal interrupts it.
fn write_some<K: Sink>(sink: &mut K, bytes: &[u8]) -> io::Result<usize>
    ensures bound { WritesAtMost result bytes.now }
    ensures bytes { WriteAppends (K.contents sink.old) (K.contents sink.new) result bytes.now }
    ensures noted { IfOk result (λ n. (K.calls sink.new).last ≡ Some (Ok n)) }
    ensures failed { IfErr result (λ e. Failed (K.calls sink.new) e) }
{
    for _ in 0..u64::MAX {
        let answer = sink.write(bytes);
        if !is_interruption(&answer) {
            return answer;
        }
    }
    Err(ErrorKind::TimedOut.into())
}

/// Writes the answer to a text to the start of `response`, and tells how many bytes it has; the bytes after it stay. `None` where `response`
/// is shorter than `ROOM`, whatever the answer: it is as it was. `more`: whether others follow the bytes of `text`. A caller that holds 65,536
/// bytes has all of a text that is judged.
pub fn respond(text: &[u8], more: bool, response: &mut [u8]) -> Option<usize>
    ensures value { result ≡ response_length text.now more response.old }
    ensures response_after { response.new ≡ response_over text.now more response.old }
{
    if response.len() < ROOM {
        return None;
    }
    let mut verdicts = [0u8; VERDICTS];
    match judged(text, more, &mut verdicts) {
        Ok((pairs, judgement)) => put_judgement(response, &verdicts[..pairs * VERDICT], judgement),
        Err(refusal) => put_refusal(response, refusal.number()),
    }
}

// Judges a text, of which more bytes may follow, and tells how many verdicts stand at the start of `verdicts`.
fn judged(
    text: &[u8],
    more: bool,
    verdicts: &mut [u8; VERDICTS],
) -> Result<(usize, Judgement), Refusal>
    ensures { MatchResult result (λ done. (judged text.now more ≡ Ok (take (done.0 * verdict_width) verdicts.new, done.1)) × (done.0 ≤ most_pairs))
        (λ refusal. judged text.now more ≡ Err refusal) }
{
    if is_long(text.len(), more) {
        return Err(Refusal::LongText);
    }
    let mut frames = [0u8; FRAMES];
    let Some((clean, pairs)) = read_store(text, &mut frames) else {
        return Err(Refusal::BadLine);
    };
    if pairs > MOST_PAIRS {
        return Err(Refusal::Judge(JudgeError::TooManyPairs));
    }
    let frames = &frames[..pairs * FRAME];
    match judge(frames, u8::from(clean), &mut verdicts[..pairs * VERDICT]) {
        Ok(judgement) => Ok((pairs, judgement)),
        Err(error) => Err(Refusal::Judge(error)),
    }
}

// Whether a text has more than `LONGEST` bytes, by how many of them are held and whether more follow.
fn is_long(held: usize, more: bool) -> bool
    ensures { result ≡ is_long held more }
{
    more || LONGEST < held
}

#[cfg(test)]
mod tests;
