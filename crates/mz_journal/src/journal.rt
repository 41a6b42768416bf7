//! The journal.
ghost use Rattle.std.specs.Prelude.{◌≡◌, ◌⊎◌, ◌↔◌, true, length, IfOk, OnOk, IfErr, OnErr, IsErrOf};
ghost use Rattle.mz_journal.specs.declared.fault.JournalFault.TheVariants.{Full, Memory};
ghost use Rattle.mz_journal.specs.Journal.{most_calls, no_calls, IsJournal, with_room, without_room, with_call, has_waiting, is_waiting as waits_under, with_answer};
ghost use Rattle.mz_journal.specs.Slots.{IsLast};
ghost use Rattle.mz_journal.specs.History.{by_time};

use crate::JournalFault;
use crate::copies::copied_calls;
use crate::slots::{SLOTS, answer_at, is_waiting, last_waiting, slot_of};
use mz_log::{CallEntry, Reply};
use mz_time::Time;
use mz_value::Listed;
use std::alloc::{AllocError, Global};
use std::marker::Model;

/// How many calls there may be.
pub const MOST_CALLS: usize = 1_048_576;

/// Calls in an order of theirs.
pub type CallEntries = Listed<CallEntry>;

/// The calls of all sessions in the order in which they were put down, each with its reply once it has one. Memory follows
/// the calls.
#[derive(Drop)]
pub struct Journal {
    // Where copies are made.
    alloc: Global,
    // The calls.
    calls: Vec<CallEntry>,
    // For each slot of sessions the place of its last call.
    places: [usize; SLOTS],
    // Whether room for one call is reserved.
    has_room: bool,
}

impl Model for Journal {
    ghost use Rattle.std.specs.Prelude.{◌≡◌, ◌<◌, true, vec_len, vec_capacity};
    ghost use Rattle.mz_log.specs.contracts.journal.CallEntry as the_call;
    ghost use Rattle.mz_journal.specs.Journal.{JournalState, IsJournal, state_code};
    ghost use Rattle.mz_journal.specs.Slots.{ArePlaces};

    ghost Value = { JournalState };

    ghost coded = { state_code the_call.the_row.coded };

    ghost view = { λ j. record { calls = j.calls.items; has_room = j.has_room } };

    ghost invariant = { λ j. IsJournal (record { calls = j.calls.items; has_room = j.has_room })
        × (j.has_room ≡ true → vec_len j.calls < vec_capacity j.calls)
        × ArePlaces j.places j.calls.items };
}

impl Journal {
    /// The journal with no calls. Takes no memory until room is reserved.
    pub fn empty(alloc: Global) -> Journal
        ensures { result ≡ no_calls }
    {
        Journal {
            alloc,
            calls: Vec::new(alloc),
            places: [0; SLOTS],
            has_room: false,
        }
    }

    /// Makes room for one call, where there is none yet. O(1), amortized.
    pub fn reserve_call(&mut self) -> Result<(), JournalFault>
        ensures ok { OnOk result (self.new ≡ with_room self.old) }
        // On failure the journal is as before.
        ensures err { OnErr result (self.new ≡ self.old) }
        ensures full { IsErrOf result (Full most_calls) ↔ (length self.old.calls ≡ most_calls) }
        ensures cause { IfErr result (λ fault. (fault ≡ Full most_calls) ⊎ (fault ≡ Memory)) }
    {
        if self.has_room {
            return Ok(());
        }
        if self.calls.len() == MOST_CALLS {
            return Err(JournalFault::Full {
                limit: MOST_CALLS as u64,
            });
        }
        self.calls.reserve(1)?;
        self.has_room = true;
        Ok(())
    }

    /// Puts a call down behind all others, into the room that was made for it. Takes no memory. O(1).
    pub fn put_call(&mut self, call: CallEntry)
        requires { self.old.has_room ≡ true }
        ensures { self.new ≡ with_call self.old call }
    {
        self.places[slot_of(call.session)] = self.calls.len();
        self.calls.push(call).unwrap();
        self.has_room = false;
    }

    // Where the call stands that waits under this number of this session.
    fn place_of(&self, session: u64, call: u64) -> usize
        requires { has_waiting session call self.now.calls ≡ true }
        ensures { IsLast (waits_under session call) self.now.calls result }
    {
        let place = self.places[slot_of(session)];
        match self.calls.get(place) {
            Some(entry) if is_waiting(entry, session, call) => place,
            _ => last_waiting(&self.calls, session, call),
        }
    }

    /// Gives the call that waits under this number of this session its reply and its time. Takes no memory. O(1) where it is
    /// the last call of its session and sessions are numbered up to 64, else O(n), where n calls stand behind it.
    pub fn answer(&mut self, session: u64, call: u64, time: Time, reply: Reply)
        requires { has_waiting session call self.old.calls ≡ true }
        ensures { self.new ≡ with_answer self.old session call time reply }
    {
        let place = self.place_of(session, call);
        answer_at(&mut self.calls, place, time, reply);
    }

    /// The calls in the order in which they were put down. Takes no memory. O(1).
    pub fn calls(&self) -> &[CallEntry]
        ensures calls { result.now ≡ self.now.calls }
        ensures journal { IsJournal self.now }
    {
        &self.calls
    }

    /// A copy of the journal, without the room for a call. O(n), where there are n calls, and their size.
    pub fn try_copy(&self) -> Result<Journal, AllocError>
        ensures { IfOk result (λ copy. copy ≡ without_room self.now) }
    {
        Ok(Journal {
            alloc: self.alloc,
            calls: copied_calls(self.alloc, &self.calls)?,
            places: self.places,
            has_room: false,
        })
    }

    /// The history: a copy of the calls, sorted by time. Those of one time keep their order. O(n log n), where there are n
    /// calls, and their size.
    pub fn history(&self) -> Result<CallEntries, AllocError>
        ensures { IfOk result (λ history. history ≡ by_time self.now.calls) }
    {
        let mut calls = copied_calls(self.alloc, &self.calls)?;
        sort_by_time(&mut calls)?;
        Ok(CallEntries::from_vec(calls))
    }
}

// Sorts the calls by time. Those of one time keep their order.
fn sort_by_time(calls: &mut Vec<CallEntry>) -> Result<(), AllocError>
    ensures { OnOk result (calls.new.items ≡ by_time calls.old.items) }
{
    calls.sort_by_key(|call| call.time)
}
