// The lines that are printed: a line a pair, then one line for the store; or the line of a refusal.
ghost use Rattle.std.specs.Prelude.{◌≡◌, ◌++◌, ◌+◌, ◌*◌, ◌/◌, ◌≤◌, ◌<◌, length, take, drop};
ghost use Rattle.verdict_text.specs.Write.{line, refusal_line, judgement_bytes, judgement_text, written, written_over};

// Written byte for byte into a buffer of fixed size, each line equal to a definition: `Display` writes to a writer, and there is none here.

use judge::frames::VERDICT;
use judge::verdict::Judgement;

/// The width of a verdict's line.
pub const VERDICT_LINE: usize = 2 * VERDICT + 1;

const JUDGEMENT: usize = 9;

/// The width of a judgement's line, the last one.
pub const LAST_LINE: usize = 2 * JUDGEMENT + 1;

// Writes a line of these bytes at a place, and tells where it ends.
fn write_line(output: &mut [u8], at: usize, bytes: &[u8]) -> usize
    requires { at + (2 * length bytes.now + 1) ≤ length output.old }
    ensures end { result ≡ at + (2 * length bytes.now + 1) }
    ensures written { take result output.new ≡ take at output.old ++ line bytes.now }
    ensures rest { drop result output.new ≡ drop result output.old }
{
    let end = at + 2 * bytes.len();
    let Ok(()) = hex::encode_to_slice(bytes, &mut output[at..end]) else {
        unreachable!()
    };
    output[end] = b'\n';
    end + 1
}

// Heal slot, heal pair, writable, clean, refused, whether owners differ: the row is the layout of the line.
fn judgement_bytes(j: Judgement) -> [u8; JUDGEMENT]
    ensures { result ≡ judgement_bytes j }
{
    let [p0, p1, p2, p3, ..] = j.heal_pair().to_le_bytes();
    [
        j.heal_slot(),
        p0,
        p1,
        p2,
        p3,
        u8::from(j.writable),
        u8::from(j.clean),
        u8::from(j.refused),
        u8::from(j.owners_differ),
    ]
}

/// Writes the verdicts' lines and the last line to the start of `output`, and tells how many bytes they are. `None` where there is no room for
/// all of them: `output` is as it was.
pub fn put_judgement(output: &mut [u8], verdicts: &[u8], j: Judgement) -> Option<usize>
    ensures value { result ≡ written (judgement_text verdicts.now j) output.old }
    ensures output_after { output.new ≡ written_over (judgement_text verdicts.now j) output.old }
{
    let (verdicts, _) = verdicts.as_chunks::<VERDICT>();
    // By a division, since so many lines may have more bytes than a number holds.
    let lines = output.len().checked_sub(LAST_LINE)? / VERDICT_LINE;
    if lines < verdicts.len() {
        return None;
    }
    let mut end = 0;
    for verdict in verdicts {
        end = write_line(output, end, verdict);
    }
    Some(write_line(output, end, &judgement_bytes(j)))
}

/// The same for the line of a refusal.
pub fn put_refusal(output: &mut [u8], number: u8) -> Option<usize>
    ensures value { result ≡ written (refusal_line number) output.old }
    ensures output_after { output.new ≡ written_over (refusal_line number) output.old }
{
    if output.len() < 4 {
        return None;
    }
    let text = [b'R', b'0' + number / 10, b'0' + number % 10, b'\n'];
    output[..4].copy_from_slice(&text);
    Some(4)
}
