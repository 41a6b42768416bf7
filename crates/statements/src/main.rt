//! The program that shows what statements are, one a line of the input: `print` prints each in its one form, `explain` says what it
//! asks for, and `maintain` how the rows of a query change by what is written.
//! Promises nothing of its own; `normalized` of `mz_sql` says what is printed, `resolve` of `mz_resolve` what is asked for, and
//! `Maintained` of `mz_maintained` what changes.
//! Stands on `mz_sql` for the statements, `mz_resolve` for what they ask for, `mz_seq`, which carries it out, `mz_maintained` for a query
//! that is maintained, and on the kit's `clap` for the words and `anyhow`.
#![tactic(auto)]

mod form;
mod plan_text;
mod row_text;
mod session;
mod upkeep;
mod view;
mod words;

use std::io::{BufRead, BufReader, BufWriter, Write};
use std::process::ExitCode;
use std::{env, io};
use view::View;

// Answers each line of the input.
fn answer_all(rt: &HostRuntime, view: &mut View) -> io::Result<()> {
    let mut out = BufWriter::new(rt.alloc(), io::writer(rt))?;
    for line in BufReader::new(rt.alloc(), rt.reader())?.lines(rt.alloc()) {
        let answer = view.answer(rt.alloc(), line?)?;
        writeln!(out, "{answer}")?;
    }
    out.flush()
}

fn main(rt: HostRuntime) -> anyhow::Result<ExitCode> {
    let words: Vec<String> = env::args(&rt)?.collect(rt.alloc())?;
    match words::view(rt.alloc(), &words) {
        Ok(mut view) => {
            answer_all(&rt, &mut view)?;
            Ok(ExitCode::SUCCESS)
        }
        Err(error) => {
            error.print(&rt)?;
            Ok(ExitCode::from(error.exit_code() as u8))
        }
    }
}
