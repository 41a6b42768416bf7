//! The table of holds.
ghost use Rattle.std.specs.Prelude.{◌≡◌, ◌+◌, ◌≤◌, IfOk, IsSome, None, OnErr, OnOk, Some, length, map, take};
ghost use Rattle.mz_counted.specs.Counted.{count};
ghost use Rattle.mz_rules.specs.Capabilities.{of_hold};
ghost use Rattle.mz_rules.specs.Since.{least_on};
ghost use Rattle.mz_holds.specs.HoldBook.{hold_of, moving, no_holds, times_on, with_hold, with_moved, without_hold};
ghost use Rattle.mz_holds.specs.Kept.{AreCounted, IsRising};

use crate::BelowHold;
use crate::counts::{come, go, how_many, how_often, least, make_room, shift};
use crate::numbered::{found, let_go, move_to};
use mz_counted::Counted;
use mz_rules::Hold;
use mz_time::{Frontier, Time};
use std::alloc::{AllocError, Global};
use std::marker::Model;

/// The greatest number of a hold. No run reaches it: past it there is no memory for one more.
pub const MOST_HOLDS: u64 = u64::MAX - 65;

/// The live holds, which can be taken back to what they were at a mark.
#[derive(Drop)]
pub struct HoldTable {
    alloc: Global,
    // In order of their numbers.
    live: Vec<Hold>,
    // How many were taken.
    taken: u64,
    // For each collection the times of its holds, at the place of its number.
    counted: Vec<Counted>,
    // How many were live at the mark, and how many were taken then.
    mark: usize,
    marked_taken: u64,
}

impl Model for HoldTable {
    ghost use Rattle.std.specs.Prelude.{take};
    ghost use Rattle.mz_holds.specs.HoldBook.{HoldBook};
    ghost use Rattle.mz_holds.specs.Kept.{IsKept};
    ghost use Rattle.mz_marked.specs.Twice.{Twice};

    ghost Value = { Twice HoldBook };

    ghost view = { λ t. record {
      present = record { live = t.live.items; taken = t.taken };
      marked = record { live = take t.mark t.live.items; taken = t.marked_taken };
    } };

    ghost invariant = { λ t. IsKept t.live.items t.taken t.mark t.marked_taken t.counted.items };
}

// Lets go of the holds behind a mark.
fn let_go_behind(live: &mut Vec<Hold>, counted: &mut Vec<Counted>, mark: usize)
    requires mark { mark ≤ length live.old.items }
    requires counted { AreCounted live.old.items counted.old.items }
    ensures live { live.new.items ≡ take mark live.old.items }
    ensures counted { AreCounted live.new.items counted.new.items }
{
    'behind: while live.len() > mark {
        if let Some(hold) = live.pop() {
            go(counted, hold.collection, hold.time);
        }
    }
}

impl HoldTable {
    /// No hold yet. Takes no memory.
    pub fn empty(alloc: Global) -> HoldTable
        ensures present { result.present ≡ no_holds }
        ensures marked { result.marked ≡ no_holds }
    {
        HoldTable {
            alloc,
            live: Vec::new(alloc),
            taken: 0,
            counted: Vec::new(alloc),
            mark: 0,
            marked_taken: 0,
        }
    }

    /// The live holds, in order of their numbers. Takes no memory. O(1).
    pub fn live(&self) -> &[Hold]
        ensures live { result.now ≡ self.now.present.live }
        ensures rising { IsRising self.now.present.live }
    {
        &self.live
    }

    /// Remembers the holds as they are. Takes no memory. O(1).
    pub fn mark(&mut self)
        ensures present { self.new.present ≡ self.old.present }
        ensures marked { self.new.marked ≡ self.old.present }
    {
        self.mark = self.live.len();
        self.marked_taken = self.taken;
    }

    /// Gives the holds as they were at the last mark again, and the next number. Takes no memory. O(k log n), where k holds came since,
    /// and a shift for each.
    pub fn back(&mut self)
        ensures { self.new.present ≡ self.old.marked }
    {
        let_go_behind(&mut self.live, &mut self.counted, self.mark);
        self.taken = self.marked_taken;
        self.mark = self.live.len();
    }

    // Takes a hold, for a session where one is named.
    fn take(&mut self, owner: Option<u64>, collection: u64, t: Time) -> Result<u64, AllocError>
        ensures marked { self.new.marked ≡ self.old.marked }
        ensures number { IfOk result (λ hold. hold ≡ self.old.present.taken + 1) }
        ensures ok { OnOk result (self.new.present ≡ with_hold owner collection t self.old.present) }
        ensures err { OnErr result (self.new.present ≡ self.old.present) }
    {
        if self.taken >= MOST_HOLDS {
            return Err(AllocError);
        }
        make_room(&mut self.counted, self.alloc, collection)?;
        let number = self.taken + 1;
        self.live.push(Hold {
            number,
            collection,
            time: t,
            owner,
        })?;
        come(&mut self.counted, collection, t);
        self.taken = number;
        Ok(number)
    }

    /// Takes a hold on a collection at a time, and gives its number, the next one. After an `Err` the holds are as before; the marked
    /// ones stay in any case. O(log n), amortized, and a shift of the lesser times of the collection.
    pub fn acquire(&mut self, collection: u64, t: Time) -> Result<u64, AllocError>
        ensures marked { self.new.marked ≡ self.old.marked }
        ensures number { IfOk result (λ hold. hold ≡ self.old.present.taken + 1) }
        ensures ok { OnOk result (self.new.present ≡ with_hold None collection t self.old.present) }
        ensures err { OnErr result (self.new.present ≡ self.old.present) }
    {
        self.take(None, collection, t)
    }

    /// The same for a session, whose BEGIN takes the hold.
    pub fn acquire_for(&mut self, session: u64, collection: u64, t: Time) -> Result<u64, AllocError>
        ensures marked { self.new.marked ≡ self.old.marked }
        ensures number { IfOk result (λ hold. hold ≡ self.old.present.taken + 1) }
        ensures ok { OnOk result (self.new.present ≡ with_hold (Some session) collection t self.old.present) }
        ensures err { OnErr result (self.new.present ≡ self.old.present) }
    {
        self.take(Some(session), collection, t)
    }

    /// Moves a live hold to a time that is no earlier than its own. Where it is earlier, the holds are as before. What was marked is
    /// lost where the hold moves. Takes no memory. O(log n), and a shift of the lesser times of its collection.
    pub fn downgrade(&mut self, hold: u64, t: Time) -> Result<(), BelowHold>
        requires { IsSome (hold_of hold self.old.present.live) }
        ensures told { result ≡ moving hold t self.old.present.live }
        ensures ok { OnOk result (self.new.present ≡ with_moved hold t self.old.present) }
        ensures err { OnErr result (self.new ≡ self.old) }
    {
        let moved = found(&self.live, hold);
        if t < moved.time {
            return Err(BelowHold {
                at: moved.time,
                asked: t,
            });
        }
        move_to(&mut self.live, hold, t);
        shift(&mut self.counted, moved.collection, moved.time, t);
        self.mark = 0;
        Ok(())
    }

    /// Lets a live hold go. What was marked is lost. Takes no memory. O(log n), and a shift of the holds behind it and of the lesser
    /// times of its collection.
    pub fn release(&mut self, hold: u64)
        requires { IsSome (hold_of hold self.old.present.live) }
        ensures { self.new.present ≡ without_hold hold self.old.present }
    {
        let gone = found(&self.live, hold);
        let_go(&mut self.live, hold);
        go(&mut self.counted, gone.collection, gone.time);
        self.mark = 0;
    }

    /// How many live holds on a collection are at a time. Takes no memory. O(log n).
    pub fn count(&self, collection: u64, t: Time) -> u64
        ensures { result ≡ count t (times_on collection self.now.present.live) }
    {
        how_often(&self.counted, collection, t)
    }

    /// How many live holds there are on a collection. Takes no memory. O(1).
    pub fn total(&self, collection: u64) -> u64
        ensures { result ≡ length (times_on collection self.now.present.live) }
    {
        how_many(&self.counted, collection)
    }

    /// The least time of the live holds on a collection, or `Done` where there is none. Takes no memory. O(1).
    pub fn least(&self, collection: u64) -> Frontier
        ensures { result ≡ least_on collection (map of_hold self.now.present.live) }
    {
        least(&self.counted, collection)
    }
}
