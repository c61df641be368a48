// Judges a store by the frames of its pairs (docs/FORMAT.md, "The program verdicts"), between standard input and standard output.
#![tactic(auto)]

use std::process::ExitCode;
use verdict_text::answer::answer;
use verdict_text::stream::{Reader, Writer};

fn main(rt: HostRuntime) -> ExitCode {
    match answer(&mut Reader::new(rt.stdin()), &mut Writer::new(rt.stdout())) {
        Ok(()) => ExitCode::SUCCESS,
        Err(error) => {
            // Where standard error fails too, the status tells it.
            let _ = eprintln!(rt; "verdicts: {error}");
            ExitCode::FAILURE
        }
    }
}
