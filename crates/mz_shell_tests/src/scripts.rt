//! Scripts from the bytes to the transcript, and each way in which one ends early.
ghost use Rattle.std.specs.Prelude.{◌<◌};

use crate::counter::Counter;
use mz_io::{MemorySink, MemorySource, Sink, Source};
use mz_shell::*;
use mz_value::Text;
use std::alloc::{AllocError, Global};
use std::process::Abort;
use std::test::Fail;

/// Two lines, one of which is cut off.
const CUT: &[u8] = b"hello\ncom";

/// A script with a remark, an end of line as Windows has it, lines that can't be read or aren't built, and a last line without
/// its end.
const LINES: &[u8] = b"-- a remark\nhello\r\n\ncrash r1\nbegin now\n  \nfeed r1";

/// What `LINES` is answered.
const REPLIES: &[u8] =
    b"line 2 is unreadable\nline 4 is not built\nline 5 is unreadable\nline 6 is unreadable\nline 7 is not built\n";

/// What a first line is answered that can't be read.
const UNREADABLE: &[u8] = b"line 1 is unreadable\n";

/// The line that refused words are answered.
const USAGE: &[u8] = b"usage: coordinate script | threads N | load SEED SIZE\n";

/// What a run came to.
#[derive(Drop)]
struct Outcome {
    status: u8,
    written: Vec<u8>,
}

/// A source of these bytes, in pieces of at most `largest`, whose calls of these numbers fail.
fn source_of(
    alloc: Global,
    bytes: &[u8],
    largest: usize,
    failing: &[u64],
) -> Result<MemorySource, AllocError>
    requires { 0 < largest }
{
    Ok(MemorySource::new(bytes.to_vec(alloc)?, largest, failing.to_vec(alloc)?))
}

/// A sink that takes at most `largest` bytes a call, and whose calls of these numbers fail.
fn sink_of(alloc: Global, largest: usize, failing: &[u64]) -> Result<MemorySink, AllocError>
    requires { 0 < largest }
{
    Ok(MemorySink::new(alloc, largest, failing.to_vec(alloc)?))
}

/// The words of a command line.
fn words_of(alloc: Global, words: &[&str]) -> Result<Words, AllocError> {
    let mut texts = Vec::new(alloc);
    for word in words {
        texts.push(Text::from_string(word.to_string(alloc)?))?;
    }
    Ok(Words::from_vec(texts))
}

/// Runs these words.
fn run_words(
    alloc: Global,
    words: &[&str],
    source: &mut MemorySource,
    sink: &mut MemorySink,
) -> Result<Outcome, AllocError> {
    let words = words_of(alloc, words)?;
    let status = run::<Counter, MemorySource, MemorySink>(alloc, &words, source, sink);
    let written = sink.written().to_vec(alloc)?;
    Ok(Outcome { status, written })
}

/// Runs a script from a source and to a sink, each in pieces of at most so many bytes and with calls that fail.
fn run_pieces(
    alloc: Global,
    script: &[u8],
    piece: usize,
    failing_reads: &[u64],
    room: usize,
    failing_writes: &[u64],
) -> Result<Outcome, AllocError>
    requires piece { 0 < piece }
    requires room { 0 < room }
{
    let mut source = source_of(alloc, script, piece, failing_reads)?;
    let mut sink = sink_of(alloc, room, failing_writes)?;
    run_words(alloc, &["script"], &mut source, &mut sink)
}

/// Runs a script that comes in at once.
fn run_whole(alloc: Global, script: &[u8]) -> Result<Outcome, AllocError> {
    run_pieces(alloc, script, 65_536, &[], 65_536, &[])
}

/// Holds what a run came to against what it should have come to.
fn check_outcome(rt: &impl Abort, outcome: &Outcome, status: u8, written: &[u8]) {
    assert_eq!(rt; outcome.status, status);
    assert_eq!(rt; outcome.written.as_slice(), written);
}

/// Runs a script to its end, and holds what it was answered against its transcript.
fn check_script(
    rt: &impl Abort,
    alloc: Global,
    script: &[u8],
    transcript: &[u8],
) -> Result<(), AllocError> {
    check_outcome(rt, &run_whole(alloc, script)?, DONE, transcript);
    Ok(())
}

#[test]
fn a_line_alone_is_answered(rt: HostRuntime) -> Result<(), Fail> {
    check_script(&rt, rt.alloc(), b"", b"")?;
    check_script(&rt, rt.alloc(), b"hello\n", UNREADABLE)?;
    check_script(&rt, rt.alloc(), LINES, REPLIES)?;
    Ok(())
}

#[test]
fn pieces_of_any_size_give_the_same_transcript(rt: HostRuntime) -> Result<(), Fail> {
    let small = run_pieces(rt.alloc(), LINES, 1, &[], 1, &[])?;
    check_outcome(&rt, &small, DONE, REPLIES);
    let larger = run_pieces(rt.alloc(), LINES, 7, &[], 5, &[])?;
    check_outcome(&rt, &larger, DONE, REPLIES);
    Ok(())
}

#[test]
fn whole_lines_are_answered_before_the_source_fails(rt: HostRuntime) -> Result<(), Fail> {
    let outcome = run_pieces(rt.alloc(), CUT, 65_536, &[2], 65_536, &[])?;
    check_outcome(&rt, &outcome, SOURCE_FAILED, UNREADABLE);
    Ok(())
}

/// Whether a run had this status and wrote a front of what `LINES` is answered.
fn wrote_front(outcome: &Outcome, status: u8) -> bool {
    outcome.status == status && REPLIES.starts_with(outcome.written.as_slice())
}

#[test]
fn a_source_that_fails_at_any_call_leaves_a_front(rt: HostRuntime) -> Result<(), Fail> {
    for call in 1..=8 {
        let outcome = run_pieces(rt.alloc(), LINES, 7, &[call], 65_536, &[])?;
        assert!(rt; wrote_front(&outcome, SOURCE_FAILED), "at call {call}");
    }
    Ok(())
}

#[test]
fn a_sink_that_fails_at_any_call_holds_a_front(rt: HostRuntime) -> Result<(), Fail> {
    for call in 1..=12 {
        let outcome = run_pieces(rt.alloc(), LINES, 65_536, &[], 10, &[call])?;
        assert!(rt; wrote_front(&outcome, SINK_FAILED), "at call {call}");
    }
    Ok(())
}

#[test]
fn a_sink_that_fails_keeps_what_it_took(rt: HostRuntime) -> Result<(), Fail> {
    let outcome = run_pieces(rt.alloc(), CUT, 65_536, &[], 10, &[2])?;
    check_outcome(&rt, &outcome, SINK_FAILED, b"line 1 is ");
    Ok(())
}

#[test]
fn a_failing_flush_has_had_the_transcript(rt: HostRuntime) -> Result<(), Fail> {
    let outcome = run_pieces(rt.alloc(), LINES, 65_536, &[], 65_536, &[3])?;
    check_outcome(&rt, &outcome, SINK_FAILED, REPLIES);
    Ok(())
}

#[test]
fn a_piece_is_answered_before_the_next_is_read(rt: HostRuntime) -> Result<(), Fail> {
    // The answer to the second piece can't be written, so the third piece is still to be read.
    let mut source = source_of(rt.alloc(), b"hello\nworld\nagain\n", 6, &[])?;
    let mut sink = sink_of(rt.alloc(), 65_536, &[2])?;
    let outcome = run_words(rt.alloc(), &["script"], &mut source, &mut sink)?;
    check_outcome(&rt, &outcome, SINK_FAILED, UNREADABLE);
    let mut next = [0; 6];
    assert!(rt; source.read(&mut next) == Ok(6) && next == *b"again\n");
    Ok(())
}

#[test]
fn the_sink_is_flushed_once(rt: HostRuntime) -> Result<(), Fail> {
    // Two texts are written and the sink is flushed, so the next call is the fourth, which fails.
    let mut source = source_of(rt.alloc(), LINES, 65_536, &[])?;
    let mut sink = sink_of(rt.alloc(), 65_536, &[4])?;
    let outcome = run_words(rt.alloc(), &["script"], &mut source, &mut sink)?;
    check_outcome(&rt, &outcome, DONE, REPLIES);
    assert!(rt; sink.flush().is_err());
    Ok(())
}

/// Runs these words, which are refused with the usage line, and leave the source at its first call, which fails.
fn check_refused(rt: &impl Abort, alloc: Global, words: &[&str]) -> Result<(), AllocError> {
    let mut source = source_of(alloc, LINES, 65_536, &[1])?;
    let mut sink = sink_of(alloc, 65_536, &[])?;
    let outcome = run_words(alloc, words, &mut source, &mut sink)?;
    check_outcome(rt, &outcome, REFUSED, USAGE);
    assert!(rt; source.read(&mut []).is_err());
    Ok(())
}

#[test]
fn other_words_are_refused(rt: HostRuntime) -> Result<(), Fail> {
    check_refused(&rt, rt.alloc(), &[])?;
    check_refused(&rt, rt.alloc(), &["scripts"])?;
    check_refused(&rt, rt.alloc(), &["script", "script"])?;
    Ok(())
}

#[test]
fn a_line_that_finds_no_memory_ends_the_script(rt: HostRuntime) -> Result<(), Fail> {
    let outcome = run_pieces(rt.alloc(), b"hello\ncommit\nhello\n", 6, &[], 65_536, &[])?;
    check_outcome(&rt, &outcome, NO_MEMORY, UNREADABLE);
    Ok(())
}

/// Some bytes, and behind them one byte as often as makes so many in all, and other bytes.
fn filled(
    alloc: Global,
    front: &[u8],
    byte: u8,
    len: usize,
    end: &[u8],
) -> Result<Vec<u8>, AllocError> {
    let mut script = front.to_vec(alloc)?;
    script.resize(len, byte)?;
    script.extend_from_slice(end)?;
    Ok(script)
}

/// Holds what a remark of so many bytes is answered, with this behind it, against what it should be.
fn check_remark(
    rt: &impl Abort,
    alloc: Global,
    len: usize,
    end: &[u8],
    text: &[u8],
) -> Result<(), AllocError> {
    check_script(rt, alloc, &filled(alloc, b"", b'-', len, end)?, text)
}

#[test]
fn a_line_has_at_most_65536_bytes(rt: HostRuntime) -> Result<(), Fail> {
    check_remark(&rt, rt.alloc(), 65_536, b"", b"")?;
    check_remark(&rt, rt.alloc(), 65_536, b"\n", b"")?;
    check_remark(&rt, rt.alloc(), 65_535, b"\r\n", b"")?;
    check_remark(&rt, rt.alloc(), 65_537, b"", UNREADABLE)?;
    check_remark(&rt, rt.alloc(), 65_537, b"\n", UNREADABLE)?;
    check_remark(&rt, rt.alloc(), 65_536, b"\r\n", UNREADABLE)?;
    Ok(())
}

#[test]
fn a_long_line_is_one_line(rt: HostRuntime) -> Result<(), Fail> {
    let text = b"line 1 is unreadable\nline 2 is unreadable\n";
    check_remark(&rt, rt.alloc(), 200_000, b"\nhello", text)?;
    Ok(())
}

#[test]
fn a_last_line_within_the_limit_counts(rt: HostRuntime) -> Result<(), Fail> {
    let script = filled(rt.alloc(), b"hello\n", b'x', LONGEST_INPUT, b"")?;
    let outcome = run_whole(rt.alloc(), &script)?;
    check_outcome(
        &rt,
        &outcome,
        DONE,
        b"line 1 is unreadable\nline 2 is unreadable\n",
    );
    Ok(())
}

#[test]
fn a_line_that_the_limit_cuts_does_not_count(rt: HostRuntime) -> Result<(), Fail> {
    let script = filled(rt.alloc(), b"hello\n", b'x', LONGEST_INPUT, b"x")?;
    let outcome = run_whole(rt.alloc(), &script)?;
    check_outcome(&rt, &outcome, TOO_LONG, UNREADABLE);
    Ok(())
}
