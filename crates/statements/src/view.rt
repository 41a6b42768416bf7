//! What is shown of each statement.

use crate::form::form_of;
use crate::session::Session;
use mz_value::Text;
use std::alloc::{AllocError, Global};

/// What is shown of each statement.
#[derive(Drop)]
pub enum View {
    /// Its one form.
    Print,
    /// What it asks for, in a session that carries it out, which may maintain a query.
    Explain(Session),
}

impl View {
    /// What each statement asks for, from the table `kv` on.
    pub fn explanations(alloc: Global) -> Result<View, AllocError> {
        Ok(View::Explain(Session::fresh(alloc)?))
    }

    /// What each statement asks for, and how the rows of a query change by what is written.
    pub fn maintenance(alloc: Global) -> Result<View, AllocError> {
        Ok(View::Explain(Session::maintaining(alloc)?))
    }

    /// What is shown of the statement of a line.
    pub fn answer(&mut self, alloc: Global, line: String) -> Result<String, AllocError> {
        let line = Text::from_string(line);
        match self {
            View::Print => form_of(alloc, &line),
            View::Explain(session) => session.answer(alloc, &line),
        }
    }
}
