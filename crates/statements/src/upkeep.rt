//! The query whose rows are maintained as statements write.

use crate::row_text::changes_text;
use mz_bag::CountedRows;
use mz_maintained::{ChangeFault, Maintained};
use mz_plan::{Plan, Resolved};
use mz_statement::Statement;
use mz_time::Time;
use std::alloc::{AllocError, Global};

/// A query that is maintained, once there is one.
#[derive(Drop)]
pub struct Upkeep {
    query: Option<Maintained>,
    // Whether it was told of any time yet: if not, it lacks all rows.
    told: bool,
    // The first time that may still be named.
    next: Time,
}

// The number behind `at `, where the line is such a one.
fn number_of(line: &str) -> Option<u64> {
    line.strip_prefix("at ")?.parse().ok()
}

/// The time that a line names, `at TIME`: any but the last of all.
pub fn time_of(line: &str) -> Option<Time> {
    let time = Time::new(number_of(line)?)?;
    if time.number() < i64::MAX as u64 {
        Some(time)
    } else {
        None
    }
}

// The time after one, or the same where it is the last of all.
fn after(time: Time) -> Time {
    match Time::new(time.number() + 1) {
        Some(next) => next,
        None => time,
    }
}

// What is printed of changes at a time, or why they weren't carried through.
fn text_of(
    alloc: Global,
    time: Time,
    query: &Maintained,
    done: Result<(), ChangeFault>,
) -> Result<String, AllocError> {
    match done {
        Ok(()) => changes_text(alloc, time, query.changes().as_slice()),
        Err(ChangeFault::Memory) => Err(AllocError),
        Err(fault) => format!(in alloc; "{fault}"),
    }
}

impl Upkeep {
    /// Nothing is maintained yet.
    pub fn fresh() -> Upkeep {
        Upkeep {
            query: None,
            told: false,
            next: Time::zero(),
        }
    }

    /// Why a statement isn't carried out, where there is a reason: no index is maintained, and what is there stays
    /// while a query is.
    pub fn refusal(&self, statement: &Statement) -> Option<&'static str> {
        match statement {
            Statement::CreateIndex(_, _) => Some("no index is maintained"),
            Statement::DropTable(_) | Statement::DropView(_) if self.query.is_some() => {
                Some("a query is maintained")
            }
            _ => None,
        }
    }

    // Maintains a plan, from the first time on that may still be named.
    fn begin(&mut self, alloc: Global, plan: &Plan) -> Result<(), AllocError> {
        self.query = Maintained::build(alloc, plan, self.next)?;
        self.told = false;
        Ok(())
    }

    /// Maintains what is asked for, where that is a query.
    pub fn note(&mut self, alloc: Global, asked: &Resolved) -> Result<(), AllocError> {
        match asked {
            Resolved::Query(plan) => self.begin(alloc, plan),
            _ => Ok(()),
        }
    }

    /// Whether the query was told of any time yet: if not, it lacks all rows.
    pub fn is_told(&self) -> bool {
        self.told
    }

    /// What a line that names a time is answered: the changes of the query's rows by what was written. Says also
    /// whether they were carried through.
    pub fn at(
        &mut self,
        alloc: Global,
        time: Time,
        written: &[(u64, CountedRows)],
    ) -> Result<(bool, String), AllocError> {
        let Some(query) = &mut self.query else {
            return Ok((false, String::from_str(alloc, "no query")?));
        };
        if time < self.next {
            let last = self.next.back(1);
            return Ok((false, format!(in alloc; "asked {time}, last {last}")?));
        }
        let done = query.change(time, written);
        self.told = true;
        self.next = after(time);
        Ok((true, text_of(alloc, time, query, done)?))
    }
}
