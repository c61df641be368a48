// The judge for C hosts.
ghost use Rattle.std.specs.Prelude.{◌≡◌, length};
ghost use Rattle.judge.specs.Frames.{judge_frames, frames_left};
ghost use Rattle.judge.specs.Values.{error_number};
ghost use Rattle.store_io.specs.Host.{answer};
ghost use Rattle.store_io.specs.Judging.{judgement_values};

use crate::answers::give;
use judge::frames::judge;
use judge::verdict::Judgement;

/// The numbers of a judgement.
pub const JUDGEMENT: usize = 6;

// Judges a whole store from its frames.
#[unsafe(no_mangle)]
pub extern "C" fn sio_judge(
    frames: &[u8],
    clean: u8,
    verdicts: &mut [u8],
    judgement: &mut [u64; JUDGEMENT],
) -> u32
    ensures found { (result, judgement.new) ≡ answer error_number judgement_values judgement.old (judge_frames frames.now clean (length verdicts.old)) }
    ensures verdicts_after { verdicts.new ≡ frames_left frames.now clean verdicts.old }
{
    give(
        judge(frames, clean, verdicts).map(judgement_values),
        judgement,
    )
}

// The slot to heal and its pair, zeros without one; writable, clean, refused, whether owners differ.
// The C interface has a row of numbers for a record.
pub fn judgement_values(j: Judgement) -> [u64; JUDGEMENT]
    ensures { result ≡ judgement_values j }
{
    let (slot, pair) = match j.heal {
        Some((pair, index)) => (u64::from(index.number()), pair as u64),
        None => (0, 0),
    };
    [
        slot,
        pair,
        u64::from(j.writable),
        u64::from(j.clean),
        u64::from(j.refused),
        u64::from(j.owners_differ),
    ]
}
