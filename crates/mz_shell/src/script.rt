//! Reads a script and writes its transcript, each reply as soon as its line is there.
ghost use Rattle.std.specs.Prelude.{◌≡◌, ℕ, ◌+◌, ◌++◌, ◌≤◌, ◌⊎◌, [], List, length, IfOk, OnOk, IfErr, string_bytes};
ghost use Rattle.std.specs.declared.option.Option.{Option};
ghost use Rattle.std.specs.Io.KnownBytes.{Keeps};
ghost use Rattle.mz_io.specs.Causes.{Rose};
ghost use Rattle.mz_io.specs.Written.{AppendsFront};
ghost use Rattle.mz_script.specs.ScriptLine.{Machine, opening_machine};
ghost use Rattle.mz_shell.specs.declared.script.Stop.TheVariants as Stop;
ghost use Rattle.mz_shell.specs.Carrier.{DidLines, IsCarrying, most_lines};
ghost use Rattle.mz_shell.specs.Lines.{lines_of, whole_lines};
ghost use Rattle.mz_shell.specs.Transcript.{after_read_lines};
ghost use Rattle.mz_shell.specs.Runs.{longest_input, IsFinished, StopsScript, ClosesAs, IsScriptAnswer};
ghost use Rattle.mz_shell.specs.Reading.{DidWrite, IsGoing, IsNext, StopsAnswer, completes, kept, left_waiting, longest_piece, most_kept};

use crate::carrier::Carrier;
use crate::lines::{first_line, split_whole};
use crate::status::{DONE, NO_MEMORY, SINK_FAILED, SOURCE_FAILED, TOO_LONG};
use mz_io::{Failed, Sink, Source, write_all};
use mz_script::read_line;
use std::alloc::{AllocError, Global};
use thiserror::Error;

/// The most bytes that a script may have.
pub const LONGEST_INPUT: usize = 67_108_864;

/// The most bytes that are read at a time.
const LONGEST_PIECE: usize = 65_536;

/// The most bytes that are kept of a line that waits for its end. What is longer can't be read, whatever follows.
const MOST_KEPT: usize = 65_537;

/// Why a script was not read to its end and answered.
#[derive(Clone, Copy, Debug, PartialEq, Eq, Error)]
pub enum Stop {
    /// The source failed.
    #[error("the source failed")]
    Source,
    /// The sink failed.
    #[error("the sink failed")]
    Sink,
    /// There was no memory.
    #[error("there was no memory")]
    Memory,
    /// More bytes came than a script may have.
    #[error("more bytes came than a script may have")]
    TooLong,
}

impl From<Failed> for Stop {
    ghost from_gives = { λ _ stop. stop ≡ Stop.Sink };

    fn from(_: Failed) -> Stop {
        Stop::Sink
    }
}

impl From<AllocError> for Stop {
    ghost from_gives = { λ _ stop. stop ≡ Stop.Memory };

    fn from(_: AllocError) -> Stop {
        Stop::Memory
    }
}

/// A script that comes in: who carries out its whole lines, and the bytes behind them.
#[derive(Drop)]
pub struct Script<C: Carrier> {
    carrier: C,
    waiting: Vec<u8>,
    alloc: Global,
}

// Answers the lines, and writes the answers behind the text.
fn answer_lines<C: Carrier>(
    alloc: Global,
    carrier: &mut C,
    lines: &[u8],
    text: &mut String,
) -> Result<(), AllocError>
    requires machine { IsCarrying (C.stands carrier.old) }
    requires few { C.lines carrier.old + length lines.now ≤ most_lines }
    ensures did { (machine : Machine) → C.stands carrier.old machine → OnOk result
        (DidLines (C.stands carrier.new) (string_bytes text.old) (string_bytes text.new)
        (after_read_lines (lines_of lines.now) machine)) }
    ensures few { OnOk result (C.lines carrier.new ≤ C.lines carrier.old + length lines.now) }
{
    let mut rest = lines;
    'lines: while !rest.is_empty() {
        let (line, behind) = first_line(rest);
        let says = read_line(alloc, line)?;
        carrier.line(says, text)?;
        rest = behind;
    }
    Ok(())
}

impl<C: Carrier> Script<C> {
    // Nothing was read.
    fn new(alloc: Global) -> Result<Script<C>, AllocError>
        ensures stands { IfOk result (λ script. C.stands script.carrier opening_machine) }
        ensures lines { IfOk result (λ script. C.lines script.carrier ≡ 0) }
        ensures waiting { IfOk result (λ script. script.waiting.items ≡ []) }
    {
        Ok(Script {
            carrier: C::fresh(alloc)?,
            waiting: Vec::new(alloc),
            alloc,
        })
    }

    // Answers the lines that wait, the last of which may be without its end.
    #[tactic(auto, using(crate::proofs::ReadingLemmas::front_none))]
    fn answer<K: Sink>(&mut self, sink: &mut K) -> Result<(), Stop>
        requires machine { IsCarrying (C.stands self.old.carrier) }
        requires few { C.lines self.old.carrier + length self.old.waiting.items ≤ most_lines }
        ensures did { (machine : Machine) → C.stands self.old.carrier machine → OnOk result
            (DidWrite (C.stands self.new.carrier) (K.written sink.old) (K.written sink.new)
            (after_read_lines (lines_of self.old.waiting.items) machine)) }
        ensures front { (machine : Machine) → C.stands self.old.carrier machine
            → AppendsFront (K.written sink.old) (K.written sink.new)
            (after_read_lines (lines_of self.old.waiting.items) machine).text }
        ensures few { OnOk result (C.lines self.new.carrier
            ≤ C.lines self.old.carrier + length self.old.waiting.items) }
        ensures waiting { OnOk result (self.new.waiting.items ≡ []) }
        ensures cause { IfErr result (StopsAnswer (K.faults sink.old) (K.faults sink.new)) }
        ensures later { K.faults sink.old ≤ K.faults sink.new }
    {
        let mut text = String::new(self.alloc);
        answer_lines(self.alloc, &mut self.carrier, &self.waiting, &mut text)?;
        write_all(sink, text.as_bytes())?;
        self.waiting.clear();
        Ok(())
    }

    // Puts the bytes behind those that wait.
    fn add(&mut self, bytes: &[u8]) -> Result<(), Stop>
        ensures carrier { self.new.carrier ≡ self.old.carrier }
        ensures ok { OnOk result (self.new.waiting.items ≡ self.old.waiting.items ++ bytes.now) }
        ensures err { IfErr result (λ stop. stop ≡ Stop.Memory) }
    {
        self.waiting.extend_from_slice(bytes)?;
        Ok(())
    }

    // Lets the bytes, of which none is LF, wait behind those that wait, as far as they are kept.
    #[tactic(auto, using(crate::proofs::KeptLemmas::kept_more))]
    fn wait(&mut self, bytes: &[u8]) -> Result<(), Stop>
        requires { length self.old.waiting.items ≤ most_kept }
        ensures carrier { self.new.carrier ≡ self.old.carrier }
        ensures ok { OnOk result (self.new.waiting.items ≡ kept (self.old.waiting.items ++ bytes.now)) }
        ensures err { IfErr result (λ stop. stop ≡ Stop.Memory) }
    {
        let fits = (MOST_KEPT - self.waiting.len()).min(bytes.len());
        self.add(&bytes[..fits])
    }

    // Takes a piece that came in, and answers the lines that it completes.
    fn take<K: Sink>(&mut self, piece: &[u8], sink: &mut K) -> Result<(), Stop>
        requires machine { IsCarrying (C.stands self.old.carrier) }
        requires waiting { length self.old.waiting.items ≤ most_kept }
        requires few { C.lines self.old.carrier
            + (length self.old.waiting.items + length piece.now) ≤ most_lines }
        ensures did { (machine : Machine) → C.stands self.old.carrier machine → OnOk result
            (DidWrite (C.stands self.new.carrier) (K.written sink.old) (K.written sink.new)
            (completes machine self.old.waiting.items piece.now)) }
        ensures front { (machine : Machine) → C.stands self.old.carrier machine
            → AppendsFront (K.written sink.old) (K.written sink.new)
            (completes machine self.old.waiting.items piece.now).text }
        ensures few { OnOk result (C.lines self.new.carrier + length self.new.waiting.items
            ≤ C.lines self.old.carrier + (length self.old.waiting.items + length piece.now)) }
        ensures waiting { OnOk result (self.new.waiting.items
            ≡ left_waiting self.old.waiting.items piece.now (whole_lines piece.now)) }
        ensures cause { IfErr result (StopsAnswer (K.faults sink.old) (K.faults sink.new)) }
        ensures later { K.faults sink.old ≤ K.faults sink.new }
    {
        let (whole, behind) = split_whole(piece);
        if whole.is_empty() {
            return self.wait(piece);
        }
        self.add(whole)?;
        self.answer(sink)?;
        self.wait(behind)
    }

    // Reads one piece and answers the lines that it completes, or at the end of the input those that wait. Gives how many
    // bytes were read then, unless that was the end.
    fn next_piece<S: Source, K: Sink>(
        &mut self,
        count: usize,
        piece: &mut [u8],
        source: &mut S,
        sink: &mut K,
    ) -> Result<Option<usize>, Stop>
        requires count { count ≤ longest_input }
        requires piece { length piece.old ≡ longest_piece }
        requires machine { IsCarrying (C.stands self.old.carrier) }
        requires waiting { length self.old.waiting.items ≤ most_kept }
        requires few { C.lines self.old.carrier
            + (length self.old.waiting.items + longest_piece) ≤ most_lines }
        ensures next { (left written : Option (List ℕ))
            → IsGoing left (S.left source.old) written (K.written sink.old)
            (C.stands self.old.carrier) (C.lines self.old.carrier) self.old.waiting.items count
            → IsNext left (S.left source.new) written (K.written sink.new)
            (S.faults source.old) (S.faults source.new) (K.faults sink.old) (K.faults sink.new)
            (C.stands self.new.carrier) (C.lines self.new.carrier) self.new.waiting.items count result }
        ensures source_later { S.faults source.old ≤ S.faults source.new }
        ensures sink_later { K.faults sink.old ≤ K.faults sink.new }
    {
        let got = match source.read(piece) {
            Ok(got) => got,
            Err(_) => return Err(Stop::Source),
        };
        if got == 0 {
            return match self.answer(sink) {
                Ok(()) => Ok(None),
                Err(stop) => Err(stop),
            };
        }
        let room = LONGEST_INPUT - count;
        if got > room {
            return match self.take(&piece[..room], sink) {
                Ok(()) => Err(Stop::TooLong),
                Err(stop) => Err(stop),
            };
        }
        match self.take(&piece[..got], sink) {
            Ok(()) => Ok(Some(count + got)),
            Err(stop) => Err(stop),
        }
    }

    // Reads a script to its end by such pieces, and answers it.
    fn read_all<S: Source, K: Sink>(
        &mut self,
        piece: &mut [u8],
        source: &mut S,
        sink: &mut K,
    ) -> Result<(), Stop>
        requires stands { C.stands self.old.carrier opening_machine }
        requires lines { C.lines self.old.carrier ≡ 0 }
        requires waiting { self.old.waiting.items ≡ [] }
        requires piece { length piece.old ≡ longest_piece }
        ensures finished { OnOk result (IsFinished
            (S.left source.old) (S.left source.new) (K.written sink.old) (K.written sink.new)) }
        ensures stopped { IfErr result (StopsScript
            (S.left source.old) (S.left source.new) (K.written sink.old) (K.written sink.new)
            (S.faults source.old) (S.faults source.new) (K.faults sink.old) (K.faults sink.new)) }
        ensures source_later { S.faults source.old ≤ S.faults source.new }
        ensures sink_later { K.faults sink.old ≤ K.faults sink.new }
    {
        let mut count = 0;
        'pieces: loop {
            match self.next_piece(count, piece, source, sink) {
                Ok(Some(more)) => count = more,
                Ok(None) => return Ok(()),
                Err(stop) => return Err(stop),
            }
        }
    }
}

// Reads a script to its end, and answers it.
fn answer_script<C: Carrier, S: Source, K: Sink>(
    alloc: Global,
    source: &mut S,
    sink: &mut K,
) -> Result<(), Stop>
    ensures finished { OnOk result (IsFinished
        (S.left source.old) (S.left source.new) (K.written sink.old) (K.written sink.new)) }
    ensures stopped { IfErr result (StopsScript
        (S.left source.old) (S.left source.new) (K.written sink.old) (K.written sink.new)
        (S.faults source.old) (S.faults source.new) (K.faults sink.old) (K.faults sink.new)) }
    ensures source_later { S.faults source.old ≤ S.faults source.new }
    ensures sink_later { K.faults sink.old ≤ K.faults sink.new }
{
    let Ok(mut piece) = vec![in alloc; 0; LONGEST_PIECE] else {
        return Err(Stop::Memory);
    };
    match Script::<C>::new(alloc) {
        Ok(mut script) => script.read_all(&mut piece, source, sink),
        Err(_) => Err(Stop::Memory),
    }
}

/// The status, unless the flush at the end fails: then 4.
pub fn flushed<K: Sink>(status: u8, sink: &mut K) -> u8
    ensures status { (result ≡ status)
        ⊎ ((result ≡ 4) × Rose (K.faults sink.old) (K.faults sink.new)) }
    ensures kept { Keeps (K.written sink.old) (K.written sink.new) }
    ensures later { K.faults sink.old ≤ K.faults sink.new }
{
    match sink.flush() {
        Ok(()) => status,
        Err(_) => SINK_FAILED,
    }
}

// The status of a script that ended so. The sink is flushed.
fn close<K: Sink>(outcome: Result<(), Stop>, sink: &mut K) -> u8
    ensures status { ClosesAs (K.faults sink.old) (K.faults sink.new) outcome result }
    ensures kept { Keeps (K.written sink.old) (K.written sink.new) }
    ensures later { K.faults sink.old ≤ K.faults sink.new }
{
    match outcome {
        Ok(()) => flushed(DONE, sink),
        Err(Stop::TooLong) => flushed(TOO_LONG, sink),
        Err(Stop::Source) => {
            let _ = sink.flush();
            SOURCE_FAILED
        }
        Err(Stop::Sink) => {
            let _ = sink.flush();
            SINK_FAILED
        }
        Err(Stop::Memory) => {
            let _ = sink.flush();
            NO_MEMORY
        }
    }
}

/// Reads a script and writes its transcript, and ends with the status: 0 at the end of the input, 3 where the source failed, 4
/// where the sink failed, 5 for want of memory, 6 where more bytes came than a script may have. What a piece of the input is
/// answered is written before the next piece is read; the sink is flushed once, at the end. Cost: the bytes, and the rows that
/// are printed, times a logarithm of their number.
pub fn run_script<C: Carrier, S: Source, K: Sink>(alloc: Global, source: &mut S, sink: &mut K) -> u8
    ensures { IsScriptAnswer
        (S.left source.old) (S.left source.new) (K.written sink.old) (K.written sink.new)
        (S.faults source.old) (S.faults source.new) (K.faults sink.old) (K.faults sink.new) result }
{
    let outcome = answer_script::<C, S, K>(alloc, source, sink);
    close(outcome, sink)
}
