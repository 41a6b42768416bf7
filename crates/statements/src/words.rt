//! The words of the program.

use crate::view::View;
use clap::{Command, Error};
use std::alloc::{AllocError, Global};

// What the words may be.
fn command<'a>(alloc: Global) -> Result<Command<'a>, AllocError> {
    let print = Command::new(alloc, "print").about("Prints each in its one form");
    let explain = Command::new(alloc, "explain").about("Says what each asks for");
    let maintain = Command::new(alloc, "maintain").about(
        "Says how writes change the rows of a query",
    );
    Command::new(alloc, "statements")
        .about("Reads a statement of SQL a line")
        .subcommand_required(true)
        .subcommand(print)?
        .subcommand(explain)?
        .subcommand(maintain)
}

/// What the words ask for, the first of which is the program's own name; or why they are refused.
pub fn view<'a>(alloc: Global, words: &'a [String]) -> Result<View, Error> {
    let matches = command(alloc)?.try_get_matches_from::<String>(words)?;
    match matches.subcommand_name() {
        Some("explain") => Ok(View::explanations(alloc)?),
        Some("maintain") => Ok(View::maintenance(alloc)?),
        _ => Ok(View::Print),
    }
}
