//! The live streams.
ghost use Rattle.std.specs.Prelude.{◌≡◌, ℕ, IfOk, OnErr, OnOk, Some, drop, filter, is_some, length, map, not, take};
ghost use Rattle.std.specs.List.{position};
ghost use Rattle.mz_rules.specs.Streams.{told_where_named};
ghost use Rattle.mz_history.specs.Kept.{mapped_from, markeds, marked_now, presents, taken_back, told_line, AreApart, IsWithin};
ghost use Rattle.mz_history.specs.StreamBook.{changed_of, is_of, kept_of, lines_of, stream_of, trimmed_to, with_line};

use crate::kept_stream::KeptStream;
use crate::lines::Commands;
use mz_plan::Command;
use mz_time::Frontier;
use mz_value::Name;
use std::alloc::{AllocError, Global};

// Where the stream of a replica stands, if it has one.
fn place_of(streams: &[KeptStream], replica: &Name) -> Option<usize>
    ensures { result ≡ position (λ stream. is_of replica.now stream.present) streams.now }
{
    streams.iter().position(|stream| stream.is_of(replica))
}

/// Whether a replica has a stream.
pub fn is_live(streams: &[KeptStream], replica: &Name) -> bool
    ensures { result ≡ is_some (stream_of replica.now (presents streams.now)) }
{
    match streams {
        [] => false,
        [first, rest @ ..] => first.is_of(replica) || is_live(rest, replica),
    }
}

/// How many lines the stream of a replica has, 0 where it has no stream.
pub fn length_of(streams: &[KeptStream], replica: &Name) -> u64
    ensures { result ≡ length (lines_of (stream_of replica.now (presents streams.now))) }
{
    match streams {
        [] => 0,
        [first, rest @ ..] => {
            if first.is_of(replica) {
                first.length()
            } else {
                length_of(rest, replica)
            }
        }
    }
}

/// How many lines of the stream of a replica aren't asked for again, 0 where it has no stream.
pub fn kept_in(streams: &[KeptStream], replica: &Name) -> u64
    ensures { result ≡ kept_of (stream_of replica.now (presents streams.now)) }
{
    match streams {
        [] => 0,
        [first, rest @ ..] => {
            if first.is_of(replica) {
                first.kept()
            } else {
                kept_in(rest, replica)
            }
        }
    }
}

/// The greatest frontier that the stream of a replica names for a collection, where it names one.
pub fn told_in(streams: &[KeptStream], replica: &Name, collection: u64) -> Option<Frontier>
    ensures { result ≡ told_where_named collection (lines_of (stream_of replica.now (presents streams.now))) }
{
    match streams {
        [] => None,
        [first, rest @ ..] => {
            if first.is_of(replica) {
                first.told(collection)
            } else {
                told_in(rest, replica, collection)
            }
        }
    }
}

/// A copy of the lines of the stream of a replica after the first so many.
pub fn lines_from(
    streams: &[KeptStream],
    alloc: Global,
    replica: &Name,
    taken: u64,
) -> Result<Commands, AllocError>
    ensures { IfOk result (λ lines. lines ≡ drop taken (lines_of (stream_of replica.now (presents streams.now)))) }
{
    match streams {
        [] => Ok(Commands::from_vec(Vec::new(alloc))),
        [first, rest @ ..] => {
            if first.is_of(replica) {
                first.from(alloc, taken)
            } else {
                lines_from(rest, alloc, replica, taken)
            }
        }
    }
}

// One stream is told a copy of a line.
fn push_copy(stream: &mut KeptStream, alloc: Global, line: &Command) -> Result<(), AllocError>
    ensures within { IsWithin stream.old }
    ensures ok { OnOk result (stream.new ≡ told_line line.now stream.old) }
    ensures err { OnErr result (stream.new ≡ stream.old) }
{
    stream.marked();
    stream.push(line.try_copy(alloc)?)
}

/// Each stream from a place on is told a copy of a line. After an `Err` each is as before.
#[tactic(auto, using(crate::proofs::Lists::from_end))]
pub fn push_from(
    streams: &mut Vec<KeptStream>,
    place: usize,
    alloc: Global,
    line: &Command,
) -> Result<(), AllocError>
    ensures ok { OnOk result (streams.new.items ≡ mapped_from place (told_line line.now) streams.old.items) }
    ensures err { OnErr result (streams.new.items ≡ streams.old.items) }
{
    if place >= streams.len() {
        return Ok(());
    }
    match push_copy(&mut streams[place], alloc, line) {
        Err(error) => Err(error),
        Ok(()) => match push_from(streams, place + 1, alloc, line) {
            Ok(()) => Ok(()),
            Err(error) => {
                streams[place].pop();
                Err(error)
            }
        },
    }
}

/// Each stream is told a copy of a line. What is marked stays. After an `Err` each is as before.
pub fn push_all(
    streams: &mut Vec<KeptStream>,
    alloc: Global,
    line: &Command,
) -> Result<(), AllocError>
    ensures ok { OnOk result (streams.new.items ≡ map (told_line line.now) streams.old.items) }
    ensures err { OnErr result (streams.new.items ≡ streams.old.items) }
{
    push_from(streams, 0, alloc, line)
}

// The stream of a replica, which stands at this place, is told a line.
fn push_at(
    streams: &mut Vec<KeptStream>,
    replica: &Name,
    place: usize,
    line: Command,
) -> Result<(), AllocError>
    requires there { Some place ≡ position (λ stream. is_of replica.now stream.present) streams.old.items }
    requires apart { AreApart (presents streams.old.items) }
    ensures marked { (mark : ℕ) → markeds (take mark streams.new.items) ≡ markeds (take mark streams.old.items) }
    ensures same_length { length streams.new.items ≡ length streams.old.items }
    ensures ok { OnOk result (presents streams.new.items
        ≡ map (changed_of replica.now (with_line line)) (presents streams.old.items)) }
    ensures err { OnErr result (streams.new.items ≡ streams.old.items) }
{
    match streams[place].push(line) {
        Ok(()) => Ok(()),
        Err(error) => Err(error),
    }
}

/// The stream of a replica is told a line, if it has one. What is marked stays. After an `Err` each is as before.
pub fn push_one(
    streams: &mut Vec<KeptStream>,
    replica: &Name,
    line: Command,
) -> Result<(), AllocError>
    requires { AreApart (presents streams.old.items) }
    ensures marked { (mark : ℕ) → markeds (take mark streams.new.items) ≡ markeds (take mark streams.old.items) }
    ensures same_length { length streams.new.items ≡ length streams.old.items }
    ensures ok { OnOk result (presents streams.new.items
        ≡ map (changed_of replica.now (with_line line)) (presents streams.old.items)) }
    ensures err { OnErr result (streams.new.items ≡ streams.old.items) }
{
    match place_of(streams, replica) {
        Some(place) => push_at(streams, replica, place, line),
        None => Ok(()),
    }
}

/// So many lines of the stream of a replica aren't asked for again, if it has one. Takes no memory.
pub fn trim_one(streams: &mut Vec<KeptStream>, replica: &Name, taken: u64)
    requires { AreApart (presents streams.old.items) }
    ensures { presents streams.new.items ≡ map (changed_of replica.now (trimmed_to taken)) (presents streams.old.items) }
{
    match place_of(streams, replica) {
        Some(place) => streams[place].trim(taken),
        None => {}
    }
}

/// The stream of a replica goes, if it has one. Takes no memory.
pub fn leave_one(streams: &mut Vec<KeptStream>, replica: &Name)
    requires { AreApart (presents streams.old.items) }
    ensures { presents streams.new.items ≡ filter (λ stream. not (is_of replica.now stream)) (presents streams.old.items) }
{
    match place_of(streams, replica) {
        Some(place) => {
            streams.remove(place);
        }
        None => {}
    }
}

/// How many there are. Takes no memory.
pub fn count(streams: &[KeptStream]) -> usize
    ensures { result ≡ length streams.now }
{
    streams.len()
}

/// Remembers each as it is. Takes no memory.
pub fn mark_all(streams: &mut Vec<KeptStream>)
    ensures { streams.new.items ≡ map marked_now streams.old.items }
{
    'each: for place in 0..streams.len() {
        streams[place].mark();
    }
}

/// Gives each as it was at the mark again. Takes no memory.
pub fn take_all_back(streams: &mut Vec<KeptStream>)
    ensures { streams.new.items ≡ map taken_back streams.old.items }
{
    'each: for place in 0..streams.len() {
        streams[place].back();
    }
}
