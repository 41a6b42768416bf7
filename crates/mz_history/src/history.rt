//! The history of what replicas are told.
ghost use Rattle.std.specs.Prelude.{◌≡◌, ◌+◌, ◌<◌, ◌≤◌, ◌^◌, ◌++◌, ◌∷◌, [], ℕ, IfOk, None, OnErr, OnOk, drop, false, is_some, length, take};
ghost use Rattle.mz_history.specs.Kept.{begun, markeds, presents};
ghost use Rattle.mz_rules.specs.Streams.{told_where_named};
ghost use Rattle.mz_history.specs.StreamBook.{kept_of, lines_of, no_streams, once_more, stream_of, times_of, told_all, told_one, trimmed, with_joining, without_stream};

use crate::joining::Joining;
use crate::joinings::{join_once_more, next_of};
use crate::kept_stream::KeptStream;
use crate::lines::Commands;
use crate::streams::{kept_in, leave_one, length_of, lines_from, push_all, told_in, trim_one};
use crate::{joinings, streams};
use mz_plan::Command;
use mz_time::Frontier;
use mz_value::Name;
use std::alloc::{AllocError, Global};
use std::marker::Model;

/// The live streams, and how often each replica has joined, which can be taken back to what they were at a mark.
#[derive(Drop)]
pub struct History {
    alloc: Global,
    // In order of joining.
    streams: Vec<KeptStream>,
    // In order of first joining.
    joinings: Vec<Joining>,
    // How many streams there were at the mark, and how many replicas had joined.
    mark: usize,
    joined_mark: usize,
}

impl Model for History {
    ghost use Rattle.std.specs.Coded.{codes};
    ghost use Rattle.std.specs.Prelude.{take};
    ghost use Rattle.mz_plan.specs.contracts.command.Command as the_command;
    ghost use Rattle.mz_marked.specs.Twice.{Twice};
    ghost use Rattle.mz_history.specs.Kept.{markeds, presents, AreMarked};
    ghost use Rattle.mz_history.specs.StreamBook.{StreamBook};

    ghost Value = { Twice StreamBook };

    ghost coded = { Prim.hlevel (codes, the_command.the_row.coded) };

    ghost view = { λ h. record {
      present = record { live = presents h.streams.items; joined = presents h.joinings.items };
      marked = record { live = markeds (take h.mark h.streams.items); joined = markeds (take h.joined_mark h.joinings.items) };
    } };

    ghost invariant = { λ h. AreMarked h.streams.items h.joinings.items h.mark h.joined_mark };
}

// A stream comes behind the others, whose replica has joined once more. After an `Err` all is as before. What was marked stays.
fn enter(
    streams: &mut Vec<KeptStream>,
    joinings: &mut Vec<Joining>,
    alloc: Global,
    replica: &Name,
    stream: KeptStream,
) -> Result<(), AllocError>
    requires { times_of replica.now (presents joinings.old.items) + 1 < 2 ^ 64 }
    ensures marked { (mark : ℕ) → mark ≤ length joinings.old.items
        → markeds (take mark joinings.new.items) ≡ markeds (take mark joinings.old.items) }
    ensures longer { length joinings.old.items ≤ length joinings.new.items }
    ensures streams { OnOk result (streams.new.items ≡ streams.old.items ++ stream ∷ []) }
    ensures joined { OnOk result (presents joinings.new.items ≡ once_more replica.now (presents joinings.old.items)) }
    ensures same_streams { OnErr result (streams.new.items ≡ streams.old.items) }
    ensures same_joined { OnErr result (joinings.new.items ≡ joinings.old.items) }
{
    streams.reserve(1)?;
    join_once_more(joinings, alloc, replica)?;
    streams.push(stream).unwrap();
    Ok(())
}

// The stream of a replica begins, as its next incarnation. After an `Err` all is as before. What was marked stays.
fn begin(
    streams: &mut Vec<KeptStream>,
    joinings: &mut Vec<Joining>,
    alloc: Global,
    replica: &Name,
    incarnation: u64,
    reduced: Commands,
) -> Result<(), AllocError>
    requires { incarnation ≡ times_of replica.now (presents joinings.old.items) + 1 }
    ensures marked { (mark : ℕ) → mark ≤ length joinings.old.items
        → markeds (take mark joinings.new.items) ≡ markeds (take mark joinings.old.items) }
    ensures longer { length joinings.old.items ≤ length joinings.new.items }
    ensures streams { OnOk result (streams.new.items ≡ streams.old.items ++ begun replica.now incarnation reduced ∷ []) }
    ensures joined { OnOk result (presents joinings.new.items ≡ once_more replica.now (presents joinings.old.items)) }
    ensures same_streams { OnErr result (streams.new.items ≡ streams.old.items) }
    ensures same_joined { OnErr result (joinings.new.items ≡ joinings.old.items) }
{
    let stream = KeptStream::new(alloc, replica, incarnation, reduced)?;
    enter(streams, joinings, alloc, replica, stream)
}

impl History {
    /// No replica has joined. Takes no memory.
    pub fn empty(alloc: Global) -> History
        ensures present { result.present ≡ no_streams }
        ensures marked { result.marked ≡ no_streams }
    {
        History {
            alloc,
            streams: Vec::new(alloc),
            joinings: Vec::new(alloc),
            mark: 0,
            joined_mark: 0,
        }
    }

    /// Remembers all as it is. Takes no memory. O(r), for r replicas.
    pub fn mark(&mut self)
        ensures present { self.new.present ≡ self.old.present }
        ensures marked { self.new.marked ≡ self.old.present }
    {
        let mark = streams::count(&self.streams);
        let joined_mark = joinings::count(&self.joinings);
        streams::mark_all(&mut self.streams);
        joinings::mark_all(&mut self.joinings);
        self.mark = mark;
        self.joined_mark = joined_mark;
    }

    /// Gives all as it was at the last mark again, and the next numbers. Takes no memory. O(k n), where k lines came since.
    pub fn back(&mut self)
        ensures { self.new.present ≡ self.old.marked }
    {
        self.streams.truncate(self.mark);
        self.joinings.truncate(self.joined_mark);
        streams::take_all_back(&mut self.streams);
        joinings::take_all_back(&mut self.joinings);
        self.mark = 0;
        self.joined_mark = 0;
    }

    /// A replica joins that isn't live, is told these lines, and gets the number of its incarnation, which is how often it has joined now.
    /// After an `Err` all is as before; what is marked stays in any case. O(n log n), for n lines.
    pub fn join(&mut self, replica: &Name, reduced: Commands) -> Result<u64, AllocError>
        requires { stream_of replica.now self.old.present.live ≡ None }
        ensures marked { self.new.marked ≡ self.old.marked }
        ensures number { IfOk result (λ incarnation. incarnation ≡ times_of replica.now self.old.present.joined + 1) }
        ensures ok { OnOk result (self.new.present ≡ with_joining replica.now reduced self.old.present) }
        ensures err { OnErr result (self.new.present ≡ self.old.present) }
    {
        let incarnation = next_of(&self.joinings, replica)?;
        begin(
            &mut self.streams,
            &mut self.joinings,
            self.alloc,
            replica,
            incarnation,
            reduced,
        )?;
        Ok(incarnation)
    }

    /// A replica is lost: its stream goes, if it has one, and how often it has joined stays. What was marked is lost. Takes no memory.
    /// O(n), for the n lines that go.
    pub fn leave(&mut self, replica: &Name)
        ensures { self.new.present ≡ without_stream replica.now self.old.present }
    {
        leave_one(&mut self.streams, replica);
        self.mark = 0;
        self.joined_mark = 0;
    }

    /// Each live stream is told a line. After an `Err` all is as before; what is marked stays in any case. A copy a stream, and O(log n)
    /// each, amortized.
    pub fn push(&mut self, line: Command) -> Result<(), AllocError>
        ensures marked { self.new.marked ≡ self.old.marked }
        ensures ok { OnOk result (self.new.present ≡ told_all line self.old.present) }
        ensures err { OnErr result (self.new.present ≡ self.old.present) }
    {
        push_all(&mut self.streams, self.alloc, &line)?;
        Ok(())
    }

    /// The stream of one replica is told a line, if it has one. After an `Err` all is as before; what is marked stays in any case.
    /// O(log n), amortized.
    pub fn push_one(&mut self, replica: &Name, line: Command) -> Result<(), AllocError>
        ensures marked { self.new.marked ≡ self.old.marked }
        ensures ok { OnOk result (self.new.present ≡ told_one replica.now line self.old.present) }
        ensures err { OnErr result (self.new.present ≡ self.old.present) }
    {
        streams::push_one(&mut self.streams, replica, line)?;
        Ok(())
    }

    /// Whether a replica is live. Takes no memory. O(r), for r live ones.
    pub fn is_live(&self, replica: &Name) -> bool
        ensures live { result ≡ is_some (stream_of replica.now self.now.present.live) }
        ensures lost { result ≡ false → stream_of replica.now self.now.present.live ≡ None }
    {
        streams::is_live(&self.streams, replica)
    }

    /// The lines of the stream of a replica after the first so many, at least all that may still be asked for. O(n).
    pub fn from(&self, replica: &Name, taken: u64) -> Result<Commands, AllocError>
        requires low { kept_of (stream_of replica.now self.now.present.live) ≤ taken }
        requires high { taken ≤ length (lines_of (stream_of replica.now self.now.present.live)) }
        ensures { IfOk result (λ lines. lines ≡ drop taken (lines_of (stream_of replica.now self.now.present.live))) }
    {
        lines_from(&self.streams, self.alloc, replica, taken)
    }

    /// How many lines the stream of a replica has, 0 where it has no stream. Takes no memory. O(r).
    pub fn length(&self, replica: &Name) -> u64
        ensures { result ≡ length (lines_of (stream_of replica.now self.now.present.live)) }
    {
        length_of(&self.streams, replica)
    }

    /// The greatest frontier that the whole stream of a replica names for a collection, or none exactly where it names none. Takes no
    /// memory. O(r + log n).
    pub fn told(&self, replica: &Name, collection: u64) -> Option<Frontier>
        ensures { result ≡ told_where_named collection (lines_of (stream_of replica.now self.now.present.live)) }
    {
        told_in(&self.streams, replica, collection)
    }

    /// So many lines of the stream of a replica aren't asked for again. What was marked is lost. Takes no memory. O(r).
    pub fn trim(&mut self, replica: &Name, taken: u64)
        requires low { kept_of (stream_of replica.now self.old.present.live) ≤ taken }
        requires high { taken ≤ length (lines_of (stream_of replica.now self.old.present.live)) }
        ensures { self.new.present ≡ trimmed replica.now taken self.old.present }
    {
        trim_one(&mut self.streams, replica, taken);
        self.mark = 0;
        self.joined_mark = 0;
    }

    /// How many lines of the stream of a replica aren't asked for again, 0 where it has no stream. Takes no memory. O(r).
    pub fn kept(&self, replica: &Name) -> u64
        ensures { result ≡ kept_of (stream_of replica.now self.now.present.live) }
    {
        kept_in(&self.streams, replica)
    }
}
