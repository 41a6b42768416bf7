//! The program: its words, its input and its output are handed to `mz_shell::run`, and it ends with the status of that.
//! Promises nothing of its own; `run` says what is read, what is written and which status that has.
//! Stands on `mz_shell`, on `mz_world` and `mz_plain` for who carries scripts out, on `mz_io` for both ends and on `mz_value` for the
//! words.
#![tactic(auto)]

use mz_io::{ReadSource, WriteSink};
use mz_plain::Plain;
use mz_shell::{NO_MEMORY, Words, run};
use mz_value::Text;
use mz_world::World;
use std::alloc::AllocError;
use std::env;
use std::process::ExitCode;

// The words behind the program's name. Words that the system cannot give are none.
fn words(rt: &HostRuntime) -> Result<Words, AllocError> {
    let mut words = Vec::new(rt.alloc());
    if let Ok(args) = env::args(rt) {
        for word in args.skip(1) {
            words.push(Text::from_string(word))?;
        }
    }
    Ok(Words::from_vec(words))
}

fn main(rt: HostRuntime) -> ExitCode {
    let Ok(words) = words(&rt) else {
        return ExitCode::from(NO_MEMORY);
    };
    let mut source = ReadSource::new(rt.stdin());
    let mut sink = WriteSink::new(rt.stdout());
    ExitCode::from(run::<World<Plain>, _, _>(rt.alloc(), &words, &mut source, &mut sink))
}
