//! A live stream with its mark.
ghost use Rattle.std.specs.Prelude.{◌≡◌, ◌<◌, IfOk, OnErr, OnOk, drop, length};
ghost use Rattle.mz_rules.specs.Streams.{told_where_named};
ghost use Rattle.mz_history.specs.Kept.{begun, marked_now, taken_back, told_line, trimmed_both, without_last, IsWithin};
ghost use Rattle.mz_history.specs.StreamBook.{is_of as is_stream_of};

use crate::lines::{Commands, copied_after, count};
use crate::named::{found, let_go_behind, let_go_last, named_by, push_line};
use mz_plan::Command;
use mz_time::Frontier;
use mz_value::Name;
use std::alloc::{AllocError, Global};
use std::collections::BTreeMap;
use std::marker::Model;

/// A live stream, which can be taken back to what it was at a mark.
#[derive(Drop)]
pub struct KeptStream {
    replica: Name,
    incarnation: u64,
    // All lines, from the joining on.
    lines: Vec<Command>,
    // What they name of each collection.
    told: BTreeMap<u64, Frontier>,
    // How many of them aren't asked for again.
    kept: u64,
    // How many there were at the mark.
    mark: usize,
}

impl Model for KeptStream {
    ghost use Rattle.std.specs.Coded.{codes};
    ghost use Rattle.std.specs.Prelude.{take};
    ghost use Rattle.mz_plan.specs.contracts.command.Command as the_command;
    ghost use Rattle.mz_marked.specs.Twice.{Twice};
    ghost use Rattle.mz_history.specs.Kept.{IsKept};
    ghost use Rattle.mz_history.specs.StreamBook.{LiveStream};

    ghost Value = { Twice LiveStream };

    ghost coded = { Prim.hlevel (codes, the_command.the_row.coded) };

    ghost view = { λ s. record {
      present = record { replica = s.replica; incarnation = s.incarnation; commands = s.lines.items; kept = s.kept };
      marked = record { replica = s.replica; incarnation = s.incarnation; commands = take s.mark s.lines.items; kept = s.kept };
    } };

    ghost invariant = { λ s. IsKept s.lines.items s.mark s.told };
}

impl KeptStream {
    /// A stream that begins with these lines, of which none is marked. O(n log n).
    pub fn new(
        alloc: Global,
        replica: &Name,
        incarnation: u64,
        reduced: Commands,
    ) -> Result<KeptStream, AllocError>
        ensures { IfOk result (λ stream. stream ≡ begun replica.now incarnation reduced) }
    {
        let replica = replica.try_copy(alloc)?;
        let lines = reduced.into_vec();
        let told = named_by(alloc, &lines)?;
        Ok(KeptStream {
            replica,
            incarnation,
            lines,
            told,
            kept: 0,
            mark: 0,
        })
    }

    /// Whether the stream is of this replica. Takes no memory.
    pub fn is_of(&self, replica: &Name) -> bool
        ensures { result ≡ is_stream_of replica.now self.now.present }
    {
        self.replica == *replica
    }

    /// A line more. After an `Err` the stream is as before. O(log n), amortized.
    #[tactic(auto, using(crate::proofs::OneStream::kept_pushed, crate::proofs::OneStream::kept_same))]
    pub fn push(&mut self, line: Command) -> Result<(), AllocError>
        ensures ok { OnOk result (self.new ≡ told_line line self.old) }
        ensures err { OnErr result (self.new ≡ self.old) }
    {
        push_line(&mut self.lines, &mut self.told, line)?;
        Ok(())
    }

    /// How many lines are marked, which are no more than there are. Takes no memory.
    pub fn marked(&self) -> usize
        ensures within { IsWithin self.now }
        ensures count { result ≡ length self.now.marked.commands }
    {
        self.mark
    }

    /// The last line goes, which isn't marked. Takes no memory. O(n).
    pub fn pop(&mut self)
        requires { length self.old.marked.commands < length self.old.present.commands }
        ensures { self.new ≡ without_last self.old }
    {
        let_go_last(&mut self.lines, &mut self.told);
    }

    /// Remembers the stream as it is. Takes no memory. O(1).
    pub fn mark(&mut self)
        ensures { self.new ≡ marked_now self.old }
    {
        let mark = count(&self.lines);
        self.mark = mark;
    }

    /// Gives the stream as it was at the last mark again. Takes no memory. O(k n), where k lines came since.
    pub fn back(&mut self)
        ensures { self.new ≡ taken_back self.old }
    {
        let_go_behind(&mut self.lines, &mut self.told, self.mark);
    }

    /// So many lines aren't asked for again. Takes no memory. O(1).
    pub fn trim(&mut self, taken: u64)
        ensures { self.new ≡ trimmed_both taken self.old }
    {
        self.kept = taken;
    }

    /// How many lines aren't asked for again. Takes no memory. O(1).
    pub fn kept(&self) -> u64
        ensures { result ≡ self.now.present.kept }
    {
        self.kept
    }

    /// How many lines there are. Takes no memory. O(1).
    pub fn length(&self) -> u64
        ensures { result ≡ length self.now.present.commands }
    {
        self.lines.len() as u64
    }

    /// A copy of the lines after the first so many. O(n).
    pub fn from(&self, alloc: Global, taken: u64) -> Result<Commands, AllocError>
        ensures { IfOk result (λ lines. lines ≡ drop taken self.now.present.commands) }
    {
        copied_after(alloc, &self.lines, taken)
    }

    /// The greatest frontier that the lines name for a collection, where they name one. Takes no memory. O(log n).
    pub fn told(&self, collection: u64) -> Option<Frontier>
        ensures { result ≡ told_where_named collection self.now.present.commands }
    {
        found(&self.told, collection)
    }
}
