//! Runs a script from its bytes to its transcript.
use mz_io::{MemorySink, MemorySource};
use mz_plain::Plain;
use mz_shell::{DONE, Words, run};
use mz_value::Text;
use mz_world::World;
use std::alloc::{AllocError, Global};
use std::process::Abort;

/// The one word that asks for a script.
fn script_words(alloc: Global) -> Result<Words, AllocError> {
    let mut words = Vec::new(alloc);
    words.push(Text::from_string(String::from_str(alloc, "script")?))?;
    Ok(Words::from_vec(words))
}

/// A source of these bytes.
fn source_of(alloc: Global, bytes: &[u8]) -> Result<MemorySource, AllocError> {
    Ok(MemorySource::new(bytes.to_vec(alloc)?, 65_536, Vec::new(alloc)))
}

/// Runs these words over all of SQL without replicas, and gives the status.
fn run_plain(alloc: Global, words: &Words, source: &mut MemorySource, sink: &mut MemorySink) -> u8 {
    run::<World<Plain>, MemorySource, MemorySink>(alloc, words, source, sink)
}

/// Runs a script into a sink, and gives the status.
fn run_script(alloc: Global, script: &[u8], sink: &mut MemorySink) -> Result<u8, AllocError> {
    let words = script_words(alloc)?;
    let mut source = source_of(alloc, script)?;
    Ok(run_plain(alloc, &words, &mut source, sink))
}

/// Runs a script to its end, and holds what it was answered against its transcript.
pub fn check_script(
    rt: &impl Abort,
    alloc: Global,
    script: &[u8],
    transcript: &[u8],
) -> Result<(), AllocError> {
    let mut sink = MemorySink::new(alloc, 65_536, Vec::new(alloc));
    let status = run_script(alloc, script, &mut sink)?;
    assert_eq!(rt; status, DONE);
    assert_eq!(rt; sink.written(), transcript);
    Ok(())
}
