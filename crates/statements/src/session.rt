//! The sequential object that statements change, and what each of them is answered.
ghost use Rattle.std.specs.Prelude.{◌≡◌, false, IfOk};
ghost use Rattle.mz_seq.specs.Asked.{IsAsked};
ghost use Rattle.mz_seq.specs.Done.{is_query};

use crate::plan_text::{push_condition, push_plan};
use crate::upkeep::{Upkeep, time_of};
use mz_bag::CountedRows;
use mz_log::SeqReply;
use mz_plan::Resolved;
use mz_refusal::{CallFault, Refusal};
use mz_resolve::resolve;
use mz_seq::{Seq, Table};
use mz_sql::{ParseFault, parse};
use mz_statement::{Column, ColumnType, Statement};
use mz_time::Time;
use mz_value::Text;
use std::alloc::{AllocError, Global};

/// The items and the tables, and the cluster whose indexes are used.
#[derive(Drop)]
pub struct Session {
    seq: Seq,
    cluster: u64,
    // The query that is maintained, in a session that maintains any.
    upkeep: Option<Upkeep>,
}

// A fault of a text, as one of a call.
fn parse_fault(fault: ParseFault) -> CallFault {
    match fault {
        ParseFault::Syntax { at } => CallFault::Refused(Refusal::Syntax { at }),
        ParseFault::LiteralRange { at } => CallFault::Refused(Refusal::LiteralRange { at }),
        ParseFault::Memory => CallFault::Memory,
    }
}

// The number behind `cluster `, where the line is such a one.
fn cluster_of(line: &str) -> Option<u64> {
    line.strip_prefix("cluster ")?.parse().ok()
}

// The word for a type.
fn type_word(kind: ColumnType) -> &'static str {
    match kind {
        ColumnType::Int => "INT",
        ColumnType::Text => "TEXT",
        ColumnType::Bool => "BOOL",
        ColumnType::Wide => "WIDE",
    }
}

// Writes columns with their types.
fn push_columns(alloc: Global, text: &mut String, columns: &[Column]) -> Result<(), AllocError> {
    let mut between = "";
    'columns: for column in columns {
        let name = &column.name;
        let kind = type_word(column.kind);
        text.push_str(&format!(in alloc; "{between}{name} {kind}")?)?;
        between = ", ";
    }
    Ok(())
}

// What is printed of what is asked for. Of an item that is made it stands behind its number.
fn shown(alloc: Global, resolved: &Resolved) -> Result<String, AllocError> {
    let mut text = String::new(alloc);
    match resolved {
        Resolved::CreateTable(_, _) => {}
        Resolved::CreateView(_, columns, _) => {
            text.push_str(" (")?;
            push_columns(alloc, &mut text, columns.as_slice())?;
            text.push_str(")")?;
        }
        Resolved::CreateIndex(_, on, plan, _) => {
            write!(text, " on {on}: ")?;
            push_plan(alloc, &mut text, plan)?;
        }
        Resolved::Drop(id) => write!(text, "dropped {id}")?,
        Resolved::Insert(table, rows) => {
            let count = rows.len();
            write!(text, "insert {count} into {table}")?;
        }
        Resolved::Delete(table, None) => write!(text, "delete from {table}")?,
        Resolved::Delete(table, Some(cond)) => {
            write!(text, "delete from {table} where ")?;
            push_condition(alloc, &mut text, cond)?;
        }
        Resolved::Query(plan) => push_plan(alloc, &mut text, plan)?,
    }
    Ok(text)
}

// Whether it is a query.
fn is_query(asked: &Resolved) -> bool
    ensures { result ≡ is_query asked.now }
{
    matches!(asked, Resolved::Query(_))
}

// The rows of each table that there is.
fn all_rows(alloc: Global, seq: &Seq) -> Result<Vec<(u64, CountedRows)>, AllocError> {
    let mut all = Vec::new(alloc);
    'tables: for (number, bag) in seq.bags()? {
        all.push((number, bag.into_counted()?))?;
    }
    Ok(all)
}

// What came to each table that there is since the mark.
fn new_rows(alloc: Global, tables: &[Table]) -> Result<Vec<(u64, CountedRows)>, AllocError> {
    let mut changes = Vec::new(alloc);
    'tables: for table in tables {
        if table.is {
            changes.push((table.number, table.rows.changes().counted()?))?;
        }
    }
    Ok(changes)
}

// What was written since the mark; all rows where nothing was told yet.
fn written(alloc: Global, seq: &Seq, told: bool) -> Result<Vec<(u64, CountedRows)>, AllocError> {
    if told {
        new_rows(alloc, seq.changes())
    } else {
        all_rows(alloc, seq)
    }
}

// What the reply to a command says of it, where it isn't refused.
fn said(alloc: Global, reply: SeqReply, shown: String) -> Result<String, CallFault> {
    match reply {
        SeqReply::Created(id) => Ok(format!(in alloc; "created {id}{shown}")?),
        SeqReply::Refused(refusal) => Err(CallFault::Refused(refusal)),
        _ => Ok(shown),
    }
}

impl Session {
    /// The session with the table `kv` alone, in cluster 0.
    pub fn fresh(alloc: Global) -> Result<Session, AllocError> {
        Ok(Session {
            seq: Seq::fresh(alloc)?,
            cluster: 0,
            upkeep: None,
        })
    }

    /// The session with the table `kv` alone, in cluster 0, which maintains a query once it is asked one.
    pub fn maintaining(alloc: Global) -> Result<Session, AllocError> {
        Ok(Session {
            seq: Seq::fresh(alloc)?,
            cluster: 0,
            upkeep: Some(Upkeep::fresh()),
        })
    }

    // What a statement asks for.
    fn asked(&self, alloc: Global, statement: &Statement) -> Result<Resolved, CallFault>
        ensures { IfOk result (λ asked. IsAsked self.now.seq.present.items asked) }
    {
        resolve(alloc, statement, self.seq.catalog(), self.cluster)
    }

    // Carries out a command, and says what it did.
    fn carry_out(
        &mut self,
        alloc: Global,
        asked: Resolved,
        shown: String,
    ) -> Result<String, CallFault>
        requires asked { IsAsked self.old.seq.present.items asked }
        requires no_query { is_query asked ≡ false }
    {
        let reply = self.seq.apply(asked)?;
        said(alloc, reply, shown)
    }

    // Carries out a command, and says what it did. A query changes nothing.
    fn do_and_say(
        &mut self,
        alloc: Global,
        asked: Resolved,
        shown: String,
    ) -> Result<String, CallFault>
        requires { IsAsked self.old.seq.present.items asked }
    {
        if is_query(&asked) {
            Ok(shown)
        } else {
            self.carry_out(alloc, asked, shown)
        }
    }

    // What is asked for is done as far as it changes anything, and is said.
    fn answer_asked(&mut self, alloc: Global, asked: Resolved) -> Result<String, CallFault>
        requires { IsAsked self.old.seq.present.items asked }
    {
        let shown = shown(alloc, &asked)?;
        self.do_and_say(alloc, asked, shown)
    }

    // Why a statement isn't carried out, where there is a reason beside its refusals.
    fn refusal(&self, statement: &Statement) -> Option<&'static str> {
        match &self.upkeep {
            Some(upkeep) => upkeep.refusal(statement),
            None => None,
        }
    }

    // Maintains what is asked for, in a session that maintains queries, where it is one.
    fn note(&mut self, alloc: Global, asked: &Resolved) -> Result<(), AllocError>
        ensures { self.new.seq ≡ self.old.seq }
    {
        match &mut self.upkeep {
            Some(upkeep) => upkeep.note(alloc, asked),
            None => Ok(()),
        }
    }

    // What a statement is answered.
    fn answer_statement(
        &mut self,
        alloc: Global,
        statement: &Statement,
    ) -> Result<String, CallFault> {
        if let Some(why) = self.refusal(statement) {
            return Ok(String::from_str(alloc, why)?);
        }
        let asked = self.asked(alloc, statement)?;
        self.note(alloc, &asked)?;
        self.answer_asked(alloc, asked)
    }

    // The time that a line names, in a session that maintains queries.
    fn time_of(&self, line: &str) -> Option<Time> {
        match self.upkeep {
            Some(_) => time_of(line),
            None => None,
        }
    }

    // What a line that names a time is answered: how the rows of the query changed by what was written since the
    // last one.
    fn at(&mut self, alloc: Global, time: Time) -> Result<String, AllocError> {
        let Some(upkeep) = &mut self.upkeep else {
            return String::from_str(alloc, "no query");
        };
        let written = written(alloc, &self.seq, upkeep.is_told())?;
        let (carried, text) = upkeep.at(alloc, time, &written)?;
        if carried {
            self.seq.start_round();
        }
        Ok(text)
    }

    // What the statement of a text is answered.
    fn explain(&mut self, alloc: Global, text: &Text) -> Result<String, CallFault> {
        let statement = parse(alloc, text).map_err(parse_fault)?;
        self.answer_statement(alloc, &statement)
    }

    /// What a line is answered: a statement by what it asks for, or by its refusal. A line that begins with
    /// `--` is answered by itself, and so is `cluster N`, after which the indexes of that cluster are used. In a session
    /// that maintains queries `at TIME` is answered by the changes of the query's rows.
    pub fn answer(&mut self, alloc: Global, line: &Text) -> Result<String, AllocError> {
        if line.as_str().starts_with("--") {
            return String::from_str(alloc, line.as_str());
        }
        if let Some(cluster) = cluster_of(line.as_str()) {
            self.cluster = cluster;
            return format!(in alloc; "cluster {cluster}");
        }
        if let Some(time) = self.time_of(line.as_str()) {
            return self.at(alloc, time);
        }
        match self.explain(alloc, line) {
            Ok(answer) => Ok(answer),
            Err(CallFault::Memory) => Err(AllocError),
            Err(fault) => format!(in alloc; "{fault}"),
        }
    }
}
