//! The collections.
ghost use Rattle.std.specs.Prelude.{◌≡◌, ◌+◌, [], IfOk, IsSome, IsTrue, None, OnErr, OnOk, Some, length};
ghost use Rattle.std.specs.List.{AllByRecursion as Each};
ghost use Rattle.mz_time.specs.declared.frontier.Frontier.TheVariants.{At};
ghost use Rattle.mz_time.specs.Frontier.{Le};
ghost use Rattle.mz_counted.specs.Counted.{count};
ghost use Rattle.mz_rules.specs.Moves.{kept_by, let_go as let_go_of};
ghost use Rattle.mz_rules.specs.Since.{since_of as since_under};
ghost use Rattle.mz_holds.specs.HoldBook.{hold_of, moving, times_on, with_hold, with_moved, without_hold};
ghost use Rattle.mz_collections.specs.CollectionBook.{come_past, is_peeked, no_collections, settled_book, told_of, upper_of as upper_under, with_changed, with_collection, with_holds, with_peek, with_told, without_peek, IsMade};

use crate::new_collection::{NewCollection, made_with};
use crate::peeks::number_of;
use crate::places::{keep_at, let_go_at, make_room, report_at, since_of, upper_of};
use crate::sinces::settle_live;
use mz_holds::{BelowHold, HoldTable, Policy};
use mz_rules::{Hold, Settled};
use mz_time::{Frontier, Time};
use std::alloc::{AllocError, Global};
use std::marker::Model;

/// The collections with their sinces, their holds and the pending peeks on them, which can be taken back to what they were at a mark.
#[derive(Drop)]
pub struct Collections {
    // In order of creation, so that each number is its place and one.
    all: Vec<Settled>,
    // What was told of each.
    told: Vec<Frontier>,
    // What a pass has passed on to each. Between passes nothing is.
    over: Vec<Frontier>,
    // The numbers of those that aren't done, in order.
    live: Vec<u64>,
    holds: HoldTable,
    // What pending peeks keep, as holds of a table of their own.
    peeks: HoldTable,
    // How many collections there were at the mark, and how many of them weren't done.
    mark: usize,
    live_mark: usize,
}

impl Model for Collections {
    ghost use Rattle.std.specs.Coded.{codes};
    ghost use Rattle.std.specs.Prelude.{map, take};
    ghost use Rattle.mz_rules.specs.contracts.capability.Settled as the_settled;
    ghost use Rattle.mz_rules.specs.Capabilities.{of_hold};
    ghost use Rattle.mz_marked.specs.Twice.{Twice};
    ghost use Rattle.mz_collections.specs.CollectionBook.{CollectionBook};
    ghost use Rattle.mz_collections.specs.Kept.{AreAtRest, AreKept, AreMarked};

    ghost Value = { Twice CollectionBook };

    ghost coded = { Prim.hlevel (codes, the_settled.the_row.coded) };

    ghost view = { λ c. record {
      present = record {
        all = c.all.items;
        told = c.told.items;
        holds = c.holds.present;
        peeks = map of_hold c.peeks.present.live;
      };
      marked = record {
        all = take c.mark c.all.items;
        told = take c.mark c.told.items;
        holds = c.holds.marked;
        peeks = map of_hold c.peeks.marked.live;
      };
    } };

    ghost invariant = { λ c. AreKept c.all.items c.told.items c.over.items c.live.items
        × AreMarked c.all.items c.live.items c.mark c.live_mark
        × AreAtRest (map of_hold c.holds.present.live) (map of_hold c.peeks.present.live) c.all.items
        × AreAtRest (map of_hold c.holds.marked.live) (map of_hold c.peeks.marked.live) (take c.mark c.all.items) };
}

impl Collections {
    /// No collection. Takes no memory.
    pub fn empty(alloc: Global) -> Collections
        ensures present { result.present ≡ no_collections }
        ensures marked { result.marked ≡ no_collections }
    {
        Collections {
            all: Vec::new(alloc),
            told: Vec::new(alloc),
            over: Vec::new(alloc),
            live: Vec::new(alloc),
            holds: HoldTable::empty(alloc),
            peeks: HoldTable::empty(alloc),
            mark: 0,
            live_mark: 0,
        }
    }

    /// The collections with their sinces, in order of creation. Takes no memory. O(1).
    pub fn all(&self) -> &[Settled]
        ensures { result.now ≡ self.now.present.all }
    {
        &self.all
    }

    /// The live holds, in order of their numbers. Takes no memory. O(1).
    pub fn holds(&self) -> &[Hold]
        ensures { result.now ≡ self.now.present.holds.live }
    {
        self.holds.live()
    }

    /// Remembers all as it is. Takes no memory. O(1).
    pub fn mark(&mut self)
        ensures present { self.new.present ≡ self.old.present }
        ensures marked { self.new.marked ≡ self.old.present }
    {
        self.mark = self.all.len();
        self.live_mark = self.live.len();
        self.holds.mark();
        self.peeks.mark();
    }

    /// Gives all as it was at the last mark again, and the next numbers. Takes no memory. O(k log n), where k collections, holds and
    /// peeks came since.
    pub fn back(&mut self)
        ensures { self.new.present ≡ self.old.marked }
    {
        self.all.truncate(self.mark);
        self.told.truncate(self.mark);
        self.over.truncate(self.mark);
        self.live.truncate(self.live_mark);
        self.holds.back();
        self.peeks.back();
        self.mark = 0;
        self.live_mark = 0;
    }

    /// Makes a collection and gives its number, the next one. Its since is its as-of until sinces are settled. After an `Err` all is as
    /// before; what is marked stays in any case. O(1), amortized.
    pub fn create(&mut self, new: NewCollection) -> Result<u64, AllocError>
        requires made { Each (IsMade self.old.present.all) new.inputs }
        requires readable { Each (λ input. Le (since_under input self.old.present.all) (At new.as_of))
            new.inputs }
        ensures marked { self.new.marked ≡ self.old.marked }
        ensures number { IfOk result (λ number. number ≡ length self.old.present.all + 1) }
        ensures ok { OnOk result (self.new.present ≡ with_collection new self.old.present) }
        ensures err { OnErr result (self.new.present ≡ self.old.present) }
    {
        make_room(&mut self.told, &mut self.over, &mut self.live)?;
        let number = self.all.len() as u64 + 1;
        self.all.push(made_with(new, number))?;
        self.told.push(Frontier::At(Time::zero())).unwrap();
        self.over.push(Frontier::Done).unwrap();
        self.live.push(number).unwrap();
        Ok(number)
    }

    /// A collection has come so far, or has been farther. Its policy has its say. Its since stays until sinces are settled. What was
    /// marked is lost. Takes no memory. O(1).
    pub fn report(&mut self, number: u64, upper: Time)
        requires { IsMade self.old.present.all number }
        ensures { self.new.present ≡ with_changed number (come_past upper) self.old.present }
    {
        report_at(&mut self.all, number, upper);
        self.mark = 0;
        self.live_mark = 0;
    }

    /// Nothing of a collection is kept for its own sake any more. What was marked is lost. Takes no memory. O(1).
    pub fn let_go(&mut self, number: u64)
        requires { IsMade self.old.present.all number }
        ensures { self.new.present ≡ with_changed number let_go_of self.old.present }
    {
        let_go_at(&mut self.all, number);
        self.mark = 0;
        self.live_mark = 0;
    }

    /// Gives a collection another policy, which has its say at once. What was marked is lost. Takes no memory. O(1).
    pub fn set_policy(&mut self, number: u64, policy: &Policy)
        requires { IsMade self.old.present.all number }
        ensures { self.new.present ≡ with_changed number (kept_by policy.now) self.old.present }
    {
        keep_at(&mut self.all, number, policy.keep());
        self.mark = 0;
        self.live_mark = 0;
    }

    /// A peek waits on a collection at a time. After an `Err` all is as before; what is marked stays in any case. O(log n), amortized.
    pub fn add_peek(&mut self, number: u64, t: Time) -> Result<(), AllocError>
        requires { Le (since_under number self.old.present.all) (At t) }
        ensures marked { self.new.marked ≡ self.old.marked }
        ensures ok { OnOk result (self.new.present ≡ with_peek number t self.old.present) }
        ensures err { OnErr result (self.new.present ≡ self.old.present) }
    {
        self.peeks.acquire(number, t)?;
        Ok(())
    }

    /// A peek on a collection at a time waits no more. What was marked is lost. Takes no memory. O(n), where n peeks wait.
    pub fn end_peek(&mut self, number: u64, t: Time)
        requires { IsTrue (is_peeked number t self.old.present.peeks) }
        ensures { self.new.present ≡ without_peek number t self.old.present }
    {
        let peek = number_of(self.peeks.live(), number, t);
        self.peeks.release(peek);
        self.mark = 0;
        self.live_mark = 0;
    }

    /// Takes a hold on a collection at a time, and gives its number, the next one. After an `Err` all is as before; what is marked stays
    /// in any case. O(log n), amortized.
    pub fn acquire(&mut self, number: u64, t: Time) -> Result<u64, AllocError>
        requires { Le (since_under number self.old.present.all) (At t) }
        ensures marked { self.new.marked ≡ self.old.marked }
        ensures number { IfOk result (λ hold. hold ≡ self.old.present.holds.taken + 1) }
        ensures ok { OnOk result (self.new.present ≡ with_holds (with_hold None number t) self.old.present) }
        ensures err { OnErr result (self.new.present ≡ self.old.present) }
    {
        let hold = self.holds.acquire(number, t)?;
        Ok(hold)
    }

    /// The same for a session, whose BEGIN takes the hold.
    pub fn acquire_for(&mut self, session: u64, number: u64, t: Time) -> Result<u64, AllocError>
        requires { Le (since_under number self.old.present.all) (At t) }
        ensures marked { self.new.marked ≡ self.old.marked }
        ensures number { IfOk result (λ hold. hold ≡ self.old.present.holds.taken + 1) }
        ensures ok { OnOk result (self.new.present ≡ with_holds (with_hold (Some session) number t) self.old.present) }
        ensures err { OnErr result (self.new.present ≡ self.old.present) }
    {
        let hold = self.holds.acquire_for(session, number, t)?;
        Ok(hold)
    }

    /// Moves a live hold to a time that is no earlier than its own. Where it is earlier, all is as before. What was marked is lost where
    /// the hold moves. Takes no memory. O(log n).
    pub fn downgrade(&mut self, hold: u64, t: Time) -> Result<(), BelowHold>
        requires { IsSome (hold_of hold self.old.present.holds.live) }
        ensures told { result ≡ moving hold t self.old.present.holds.live }
        ensures ok { OnOk result (self.new.present ≡ with_holds (with_moved hold t) self.old.present) }
        ensures err { OnErr result (self.new ≡ self.old) }
    {
        self.holds.downgrade(hold, t)?;
        self.mark = 0;
        self.live_mark = 0;
        Ok(())
    }

    /// Lets a live hold go. What was marked is lost. Takes no memory. O(log n), and a shift of the holds behind it.
    pub fn release(&mut self, hold: u64)
        requires { IsSome (hold_of hold self.old.present.holds.live) }
        ensures { self.new.present ≡ with_holds (without_hold hold) self.old.present }
    {
        self.holds.release(hold);
        self.mark = 0;
        self.live_mark = 0;
    }

    /// How many live holds on a collection are at a time. Takes no memory. O(log n).
    pub fn count(&self, number: u64, t: Time) -> u64
        ensures { result ≡ count t (times_on number self.now.present.holds.live) }
    {
        self.holds.count(number, t)
    }

    /// How many live holds there are on a collection. Takes no memory. O(1).
    pub fn total(&self, number: u64) -> u64
        ensures { result ≡ length (times_on number self.now.present.holds.live) }
    {
        self.holds.total(number)
    }

    /// Settles all sinces. What was marked is lost. Takes no memory. O(n + k), where n collections aren't done and read k others in all.
    pub fn settle_sinces(&mut self)
        ensures { self.new.present ≡ settled_book self.old.present }
    {
        settle_live(
            &mut self.all,
            &mut self.over,
            &mut self.live,
            &self.holds,
            &self.peeks,
        );
        self.mark = 0;
        self.live_mark = 0;
    }

    /// The first time at which a collection is readable, as it was last settled; its as-of before that. Takes no memory. O(1).
    pub fn since(&self, number: u64) -> Frontier
        requires { IsMade self.now.present.all number }
        ensures { result ≡ since_under number self.now.present.all }
    {
        since_of(&self.all, number)
    }

    /// The first time at which a collection isn't readable yet. Takes no memory. O(1).
    pub fn upper(&self, number: u64) -> Time
        requires { IsMade self.now.present.all number }
        ensures { result ≡ upper_under number self.now.present.all }
    {
        upper_of(&self.all, number)
    }

    /// The greatest frontier that was told of a collection, or time 0. Takes no memory. O(1).
    pub fn told(&self, number: u64) -> Frontier
        requires { IsMade self.now.present.all number }
        ensures { result ≡ told_of number self.now.present.told }
    {
        self.told[number as usize - 1]
    }

    /// A frontier is told of a collection. What was marked is lost. Takes no memory. O(1).
    pub fn mark_told(&mut self, number: u64, f: Frontier)
        requires { IsMade self.old.present.all number }
        ensures { self.new.present ≡ with_told number f self.old.present }
    {
        let place = number as usize - 1;
        self.told[place] = self.told[place].join(f);
        self.mark = 0;
        self.live_mark = 0;
    }
}
