// The lines that are read: the clean mark, `00` or `01`, then a frame a line, two lower-case hexadecimal digits a byte. A newline ends
// each.
ghost use Rattle.std.specs.Prelude.{◌≡◌, ◌+◌, ◌++◌, ◌==◌, true, ◌<◌, List, ℕ, length, Some, IfSome, MatchOption};
ghost use Rattle.std.specs.List.{list_all, position};
ghost use Rattle.verdict_text.specs.Read.{is_digit, cut, mark_of, frame_of, frames_in, store_in};
ghost use Rattle.verdict_text.specs.Steps.{Holds};

use hex::FromHex;
use judge::frames::{FRAME, operator, parts_in_range};
use judge::operators;
use judge::verdict::MOST_PAIRS;
use memchr::memchr;

/// The room that the frames of a judgement take.
pub(crate) const FRAMES: usize = MOST_PAIRS * FRAME;

/// Whether each character is one of `0` to `9` and `a` to `f`.
pub fn is_lower_hex(text: &[u8]) -> bool
    ensures { result ≡ list_all is_digit text.now }
{
    text.iter().fold(true, |all, &c| all & matches!(c, b'0'..=b'9' | b'a'..=b'f'))
}

// The place of the first `c`.
fn find(text: &[u8], c: u8) -> Option<usize>
    ensures value { result ≡ position (λ x. x == c) text.now }
    ensures bound { IfSome result (λ end. end < length text.now) }
{
    memchr(c, text)
}

/// The text up to the first `c`, and after it.
#[tactic(auto, using(crate::proofs::ReadLaws::cut_at))]
pub fn cut(text: &[u8], c: u8) -> Option<(&[u8], &[u8])>
    ensures size { IfSome result (λ parts. length parts.0.now + length parts.1.now + 1 ≡ length text.now) }
    ensures value { MatchOption result (cut c text.now ≡ None) (λ parts. cut c text.now ≡ Some (parts.0.now, parts.1.now)) }
{
    let end = find(text, c)?;
    Some((&text[..end], &text[end + 1..]))
}

// The clean mark.
fn read_mark(line: &[u8]) -> Option<bool>
    ensures { result ≡ mark_of line.now }
{
    match line {
        [b'0', b'0'] => Some(false),
        [b'0', b'1'] => Some(true),
        _ => None,
    }
}

// A frame whose codes, facts and operator are in range; `volume`: of the volume record.
fn read_frame(volume: bool, line: &[u8]) -> Option<[u8; FRAME]>
    ensures { result ≡ frame_of volume line.now }
{
    if !is_lower_hex(line) {
        return None;
    }
    let frame = <[u8; FRAME]>::from_hex(line).ok()?;
    (parts_in_range(&frame) && operators::is_in_range(volume, operator(&frame))).then_some(frame)
}

// Puts a frame behind so many others, where there is room for it.
fn hold(frames: &mut [u8; FRAMES], pairs: usize, frame: &[u8; FRAME])
    ensures { (read : List ℕ) → Holds frames.old pairs read → Holds frames.new (pairs + 1) (read ++ frame.now) }
{
    if pairs < MOST_PAIRS {
        frames[pairs * FRAME..(pairs + 1) * FRAME].copy_from_slice(frame);
    }
}

// Reads the frames of lines, and tells how many they are. As many as there is room for stand at the start of `frames`; a line after them is
// read as well, since a bad one comes before too many.
fn read_frames(text: &[u8], frames: &mut [u8; FRAMES]) -> Option<usize>
    ensures { MatchOption result (frames_in true text.now ≡ None) (λ n. (read : List ℕ) × (frames_in true text.now ≡ Some read) × Holds frames.new n read) }
{
    let mut lines = text;
    let mut pairs = 0;
    while !lines.is_empty() {
        let (line, others) = cut(lines, b'\n')?;
        let frame = read_frame(pairs == 0, line)?;
        hold(frames, pairs, &frame);
        pairs += 1;
        lines = others;
    }
    Some(pairs)
}

/// Reads the clean mark and the frames, and tells how many they are. As many as are judged stand at the start of `frames`.
#[tactic(auto, using(crate::proofs::ReadLaws::store_cut))]
pub(crate) fn read_store(text: &[u8], frames: &mut [u8; FRAMES]) -> Option<(bool, usize)>
    ensures { MatchOption result (store_in text.now ≡ None) (λ found. (read : List ℕ) × (store_in text.now ≡ Some (found.0, read)) × Holds frames.new found.1 read) }
{
    let (mark, lines) = cut(text, b'\n')?;
    let clean = read_mark(mark)?;
    let pairs = read_frames(lines, frames)?;
    Some((clean, pairs))
}
