//! The table of peeks.
ghost use Rattle.std.specs.Prelude.{◌≡◌, ◌+◌, IfOk, OnErr, OnOk, find};
ghost use Rattle.mz_books.specs.Holds.{is_of_call, is_peek};
ghost use Rattle.mz_peeks.specs.Kept.{AreNumbered};
ghost use Rattle.mz_peeks.specs.PeekBook.{no_peeks, with_peek, without_call, without_peek};

use crate::numbered::{let_go, let_go_call, of_call, of_number};
use mz_plan::PendingPeek;
use mz_time::Time;
use std::alloc::{AllocError, Global};
use std::marker::Model;

/// The peeks that wait for their rows, which can be taken back to what they were at a mark.
#[derive(Drop)]
pub struct PeekTable {
    // In order of their numbers.
    pending: Vec<PendingPeek>,
    // How many were made.
    made: u64,
    // How many were pending at the mark, and how many were made then.
    mark: usize,
    marked_made: u64,
}

impl Model for PeekTable {
    ghost use Rattle.std.specs.Prelude.{take};
    ghost use Rattle.mz_marked.specs.Twice.{Twice};
    ghost use Rattle.mz_peeks.specs.Kept.{IsKept};
    ghost use Rattle.mz_peeks.specs.PeekBook.{PeekBook};

    ghost Value = { Twice PeekBook };

    ghost view = { λ t. record {
      present = record { pending = t.pending.items; made = t.made };
      marked = record { pending = take t.mark t.pending.items; made = t.marked_made };
    } };

    ghost invariant = { λ t. IsKept t.pending.items t.made t.mark t.marked_made };
}

impl PeekTable {
    /// No peek was made. Takes no memory.
    pub fn empty(alloc: Global) -> PeekTable
        ensures present { result.present ≡ no_peeks }
        ensures marked { result.marked ≡ no_peeks }
    {
        PeekTable {
            pending: Vec::new(alloc),
            made: 0,
            mark: 0,
            marked_made: 0,
        }
    }

    /// The pending peeks, in order of their numbers, none of which is past the last that was given.
    /// Takes no memory. O(1).
    pub fn pending(&self) -> &[PendingPeek]
        ensures pending { result.now ≡ self.now.present.pending }
        ensures numbered { AreNumbered self.now.present.pending self.now.present.made }
    {
        &self.pending
    }

    /// The pending peek of this number, none exactly where none is pending. Takes no memory.
    /// O(log n).
    pub fn get(&self, peek: u64) -> Option<PendingPeek>
        ensures { result ≡ find (is_peek peek) self.now.present.pending }
    {
        of_number(&self.pending, peek)
    }

    /// Remembers the peeks as they are. Takes no memory. O(1).
    pub fn mark(&mut self)
        ensures present { self.new.present ≡ self.old.present }
        ensures marked { self.new.marked ≡ self.old.present }
    {
        self.mark = self.pending.len();
        self.marked_made = self.made;
    }

    /// Gives the peeks as they were at the last mark again, and the next number. Takes no memory.
    /// O(k), where k peeks came since.
    pub fn back(&mut self)
        ensures { self.new.present ≡ self.old.marked }
    {
        self.pending.truncate(self.mark);
        self.made = self.marked_made;
        self.mark = self.pending.len();
    }

    /// Makes the peek of a call, of a collection at a time, and gives its number, the next one.
    /// After an `Err` the peeks are as before; the marked ones stay in any case. O(1), amortized.
    pub fn submit(
        &mut self,
        session: u64,
        call: u64,
        collection: u64,
        t: Time,
    ) -> Result<u64, AllocError>
        ensures marked { self.new.marked ≡ self.old.marked }
        ensures number { IfOk result (λ peek. peek ≡ self.old.present.made + 1) }
        ensures ok { OnOk result
            (self.new.present ≡ with_peek session call collection t self.old.present) }
        ensures err { OnErr result (self.new.present ≡ self.old.present) }
    {
        if self.made == u64::MAX {
            return Err(AllocError);
        }
        let peek = self.made + 1;
        self.pending.push(PendingPeek {
            peek,
            session,
            call,
            collection,
            time: t,
        })?;
        self.made = peek;
        Ok(peek)
    }

    /// Lets go of the peek of this number, which has its rows; gives none exactly where none is
    /// pending. What was marked is lost. Takes no memory. O(log n), and a shift of those behind it.
    pub fn finish(&mut self, peek: u64) -> Option<PendingPeek>
        ensures told { result ≡ find (is_peek peek) self.old.present.pending }
        ensures left { self.new.present ≡ without_peek peek self.old.present }
    {
        let gone = let_go(&mut self.pending, peek);
        self.mark = 0;
        gone
    }

    /// Lets go of the peek of this call, which is cancelled; gives none exactly where none of it is
    /// pending. What was marked is lost. Takes no memory. O(n).
    pub fn cancel(&mut self, session: u64, call: u64) -> Option<PendingPeek>
        ensures told { result ≡ find (is_of_call session call) self.old.present.pending }
        ensures left { self.new.present ≡ without_call session call self.old.present }
    {
        let gone = of_call(&self.pending, session, call);
        let_go_call(&mut self.pending, session, call);
        self.mark = 0;
        gone
    }
}
