//! A source and a sink in memory, in pieces of a chosen size, of which chosen calls fail.
ghost use Rattle.std.specs.Prelude.{◌≡◌, ◌+◌, ◌-◌, ◌^◌, ◌<◌, ◌≤◌, ◌++◌, min, [], ℕ, List, drop, take, length, vec_len, is_err, true, Some, IfOk, IsErr};
ghost use Rattle.std.specs.Io.{ReadsAtMost, WritesAtMost};
ghost use Rattle.std.specs.Io.KnownBytes.{Keeps, ReadConsumes, WriteAppends};
ghost use Rattle.mz_io.specs.Causes.{HasCause, Rose};
ghost use Rattle.mz_io.specs.Memory.{Input, Output, after_call, fails_next, none_made};

use super::calls::Calls;
use super::sink::Sink;
use super::source::{Failed, Source};
use std::alloc::Global;
use std::marker::Model;

/// Gives the bytes of a vector, in pieces of at most a chosen size.
#[derive(Drop)]
pub struct MemorySource {
    bytes: Vec<u8>,
    // the bytes that were given
    given: usize,
    largest: usize,
    calls: Calls,
}

impl Model for MemorySource {
    ghost Value = { Input };

    ghost view = { λ s. record {
      left = drop s.given s.bytes.items;
      largest = s.largest;
      calls = s.calls;
    } };

    ghost invariant = { λ s. (s.given ≤ vec_len s.bytes) × (0 < s.largest) };
}

impl MemorySource {
    /// Gives `bytes` in pieces of at most `largest`. The calls of `read` whose numbers, counted from 1, stand in `failing`
    /// fail. Takes no memory.
    pub fn new(bytes: Vec<u8>, largest: usize, failing: Vec<u64>) -> MemorySource
        requires { 0 < largest }
        ensures left { result.left ≡ bytes.items }
        ensures largest { result.largest ≡ largest }
        ensures calls { result.calls ≡ none_made failing.items }
        ensures faults { result.calls.faults ≡ 0 }
    {
        MemorySource {
            bytes,
            given: 0,
            largest,
            calls: Calls::none_made(failing),
        }
    }
}

impl Source for MemorySource {
    ghost left = { λ s. Some s.left };

    ghost faults = { λ s. s.calls.faults };

    fn read(&mut self, into: &mut [u8]) -> Result<usize, Failed>
        ensures bound { ReadsAtMost result into.new }
        ensures bytes { ReadConsumes (Some self.old.left) (Some self.new.left) result into.new }
        ensures cause { HasCause self.old.calls.faults self.new.calls.faults result }

        // As many bytes as there is room for, but for the calls that were to fail.
        ensures count { IfOk result (λ count.
            count ≡ min (length into.new) (min self.old.largest (length self.old.left))) }
        ensures fails { is_err result ≡ fails_next self.old.calls }
        ensures calls { self.new.calls ≡ after_call self.old.calls (is_err result) }
        ensures largest { self.new.largest ≡ self.old.largest }
    {
        self.calls.next()?;
        let count = copy_front(&self.bytes[self.given..], self.largest, into);
        self.given += count;
        Ok(count)
    }
}

/// Copies the front of `bytes` to the front of `into`, at most `largest` bytes, and says how many.
fn copy_front(bytes: &[u8], largest: usize, into: &mut [u8]) -> usize
    ensures count { result ≡ min (length into.new) (min largest (length bytes.now)) }
    ensures front { take result into.new ≡ take result bytes.now }
{
    let count = into.len().min(largest.min(bytes.len()));
    into[..count].copy_from_slice(&bytes[..count]);
    count
}

/// Keeps what is written in a vector, and takes it in pieces of at most a chosen size.
#[derive(Drop)]
pub struct MemorySink {
    bytes: Vec<u8>,
    largest: usize,
    calls: Calls,
}

impl Model for MemorySink {
    ghost Value = { Output };

    ghost view = { λ s. record {
      written = s.bytes.items;
      largest = s.largest;
      calls = s.calls;
    } };

    ghost invariant = { λ s. 0 < s.largest };
}

impl MemorySink {
    /// Takes pieces of at most `largest` bytes. The calls of `write` and `flush` whose numbers, counted together from 1, stand
    /// in `failing` fail, and so does a write that finds no memory. Takes no memory itself.
    pub fn new(alloc: Global, largest: usize, failing: Vec<u64>) -> MemorySink
        requires { 0 < largest }
        ensures written { result.written ≡ [] }
        ensures largest { result.largest ≡ largest }
        ensures calls { result.calls ≡ none_made failing.items }
        ensures faults { result.calls.faults ≡ 0 }
    {
        MemorySink {
            bytes: Vec::new(alloc),
            largest,
            calls: Calls::none_made(failing),
        }
    }

    /// The bytes that were written, in order.
    pub fn written(&self) -> &[u8]
        ensures { result.now ≡ self.now.written }
    {
        self.bytes.as_slice()
    }
}

impl Sink for MemorySink {
    ghost written = { λ s. Some s.written };

    ghost faults = { λ s. s.calls.faults };

    fn write(&mut self, piece: &[u8]) -> Result<usize, Failed>
        ensures bound { WritesAtMost result piece.now }
        ensures bytes { WriteAppends (Some self.old.written) (Some self.new.written) result
            piece.now }
        ensures cause { HasCause self.old.calls.faults self.new.calls.faults result }
        ensures none { IfOk result (λ count. count ≡ 0 → 0 < length piece.now
            → Rose self.old.calls.faults self.new.calls.faults) }

        // As many bytes as it may take. It fails where it was to fail, and where memory is wanting.
        ensures count { IfOk result (λ count. count ≡ min self.old.largest (length piece.now)) }
        ensures fails { fails_next self.old.calls ≡ true → IsErr result }
        ensures calls { self.new.calls ≡ after_call self.old.calls (is_err result) }
        ensures largest { self.new.largest ≡ self.old.largest }
    {
        self.calls.next()?;
        let count = self.largest.min(piece.len());
        match self.bytes.extend_from_slice(&piece[..count]) {
            Ok(()) => Ok(count),
            Err(_) => Err(self.calls.fault()),
        }
    }

    fn flush(&mut self) -> Result<(), Failed>
        ensures bytes { Keeps (Some self.old.written) (Some self.new.written) }
        ensures cause { HasCause self.old.calls.faults self.new.calls.faults result }
        ensures fails { is_err result ≡ fails_next self.old.calls }
        ensures calls { self.new.calls ≡ after_call self.old.calls (is_err result) }
        ensures largest { self.new.largest ≡ self.old.largest }
    {
        self.calls.next()
    }
}
