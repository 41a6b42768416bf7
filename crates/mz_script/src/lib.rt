//! Scripts of all SQL: what a line says, what it adds to the log, and the text that answers it.
//! Promises that a line is read as `line_says` of `specs/Lines.antt` has it (`read_line`), which lines are built (`is_built`), and that
//! each text is written as `specs/EventTexts.antt` has it.
//! Stands on `mz_sql` for what a text asks for, and on `mz_books` for what a log determines and what a call is given.
#![tactic(auto)]

mod event_texts;
mod reading;
mod script_line;
mod texts;
mod words;

pub use event_texts::{
    write_begun, write_call_refused, write_done, write_finished, write_no_round, write_open,
    write_queued, write_reading, write_refused, write_replied, write_spent, write_unbuilt,
    write_unreadable,
};
pub use reading::read_line;
pub use script_line::ScriptLine;
