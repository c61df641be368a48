// A list replayed: each line's case is asked, up to the first whose answer is not the one expected.
ghost use Rattle.std.specs.Prelude.{◌≡◌};
ghost use Rattle.cases.specs.Compare.{compare, within};

use crate::line::{field_bytes, split};
use arrayvec::ArrayVec;
use std::alloc::{AllocError, Global};
use std::fmt;
use std::io::{self, Read, Write};
use verdict_text::read::cut;

/// An answer as it is packed, or a buffer to be written to.
pub type Bytes = ArrayVec<u8, 4096>;

/// Why a list is not replayed to its end.
#[derive(Clone, Copy)]
pub enum Fault {
    /// The answer is not the one expected.
    Differs,
    /// The line is no case, or the input none of its name.
    Unreadable,
    Memory,
}

impl From<AllocError> for Fault {
    fn from(_error: AllocError) -> Self {
        Fault::Memory
    }
}

impl fmt::Display for Fault {
    fn fmt<W: fmt::Write>(&self, f: &mut fmt::Formatter<W>) -> fmt::Result {
        match self {
            Fault::Differs => write!(f, "differs"),
            Fault::Unreadable => write!(f, "cannot be read"),
            Fault::Memory => write!(f, "does not fit into memory"),
        }
    }
}

/// A table of functions by the names of their cases.
pub trait Table {
    /// The names, in the order in which the cases are counted.
    const NAMES: &'static [&'static str];

    /// The most bytes of a list,
    const LONGEST: usize = 131_072;

    /// and of an input, of what is expected and of an answer: any number, where a table says none.
    const FIELD: usize = usize::MAX;

    // Each table goes by a `match` on the name: a function pointer that is called wants a `requires` where it comes in, and no public
    // function has one. Input and answer go side by side: a struct of both would be made for this call alone.
    /// Packs the answer of the function of this name. There is none where the input is shorter than its arguments.
    fn answer(name: &[u8], input: &[u8], answer: &mut Bytes) -> Option<()>;

    /// Packs, in place of that answer, the one made in a second way, which is to be the one expected as well. Where there is one way the
    /// answer stays.
    fn second(_name: &[u8], _input: &[u8], _answer: &mut Bytes) -> Option<()> {
        Some(())
    }

    /// Replays the list that `input` has, and says so.
    final fn run<R: Read + Drop, W: Write>(
        alloc: Global,
        input: R,
        output: &mut W,
    ) -> io::Result<()> {
        let mut list = Vec::new(alloc);
        // A byte more tells a list that is too long.
        input
            .take((Self::LONGEST as u64).saturating_add(1))
            .read_to_end(&mut list)?;
        if Self::LONGEST < list.len() {
            return writeln!(output, "the list has more than {} bytes", Self::LONGEST);
        }
        Self::replay(alloc, &list, output)
    }

    final fn replay<W: Write>(alloc: Global, list: &[u8], output: &mut W) -> io::Result<()> {
        let mut counts = vec![in alloc; 0u64; Self::NAMES.len()]?;
        let mut equal: u64 = 0;
        let mut answer = Bytes::new();
        let mut lines = list;
        while !lines.is_empty() {
            let Some((line, others)) = cut(lines, b'\n') else {
                return stopped(output, equal + 1, Fault::Unreadable, lines);
            };
            match ask::<Self>(alloc, line, &mut answer) {
                Ok(place) => count(&mut counts, place),
                Err(fault) => return stopped(output, equal + 1, fault, line),
            }
            equal += 1;
            lines = others;
        }
        summary(output, Self::NAMES, &counts, equal)
    }

    /// The place of the case's name, where each of its answers is the one expected.
    final fn case(alloc: Global, line: &[u8]) -> Result<usize, Fault> {
        ask::<Self>(alloc, line, &mut Bytes::new())
    }
}

// The same, in a buffer for answers that is lent to every case of a list: made anew for each it took a third of a run.
fn ask<T: Table>(alloc: Global, line: &[u8], answer: &mut Bytes) -> Result<usize, Fault> {
    let Some((name, input, expected)) = split(line) else {
        return Err(Fault::Unreadable);
    };
    let Some(place) = T::NAMES.iter().position(|known| known.as_bytes() == name) else {
        return Err(Fault::Unreadable);
    };
    let Some(input) = field_bytes(alloc, input)? else {
        return Err(Fault::Unreadable);
    };
    within(&input, T::FIELD)?;
    let Some(expected) = field_bytes(alloc, expected)? else {
        return Err(Fault::Unreadable);
    };
    within(&expected, T::FIELD)?;
    answer.clear();
    let Some(()) = T::answer(name, &input, answer) else {
        return Err(Fault::Unreadable);
    };
    within(answer, T::FIELD)?;
    compare(answer, &expected)?;
    let Some(()) = T::second(name, &input, answer) else {
        return Err(Fault::Unreadable);
    };
    within(answer, T::FIELD)?;
    compare(answer, &expected)?;
    Ok(place)
}

// Whether a field has at most so many bytes.
fn within(field: &[u8], most: usize) -> Result<(), Fault>
    ensures { result ≡ within field.now most }
{
    if field.len() <= most {
        Ok(())
    } else {
        Err(Fault::Unreadable)
    }
}

// Whether an answer is the one expected.
fn compare(answer: &[u8], expected: &[u8]) -> Result<(), Fault>
    ensures { result ≡ compare answer.now expected.now }
{
    if answer == expected {
        Ok(())
    } else {
        Err(Fault::Differs)
    }
}

// No list has so many lines that a count wraps.
fn count(counts: &mut [u64], place: usize) {
    if let Some(count) = counts.get_mut(place) {
        *count = count.wrapping_add(1);
    }
}

fn stopped<W: Write>(output: &mut W, number: u64, fault: Fault, line: &[u8]) -> io::Result<()> {
    write!(output, "line {number} {fault}: ")?;
    output.write_all(line)?;
    output.write_all(b"\n")
}

fn summary<W: Write>(output: &mut W, names: &[&str], counts: &[u64], equal: u64) -> io::Result<()> {
    for (name, count) in names.iter().zip(counts) {
        writeln!(output, "{name} {count} equal")?;
    }
    writeln!(output, "{equal} cases, all equal")
}

#[cfg(test)]
mod tests;
