//! What the program does with the words of its command line.
ghost use Rattle.std.specs.Prelude.{◌≡◌, ◌≢◌};
ghost use Rattle.mz_shell.specs.Runs.{script_words, IsScriptAnswer, IsRefusal};

use crate::carrier::Carrier;
use crate::script::{flushed, run_script};
use crate::status::{REFUSED, SINK_FAILED};
use crate::words::Words;
use mz_io::{Sink, Source, write_all};
use std::alloc::Global;

/// The line that is written where the words are refused.
const USAGE: &str = "usage: coordinate script | threads N | load SEED SIZE\n";

// Writes the usage line.
fn refuse<K: Sink>(sink: &mut K) -> u8
    ensures { IsRefusal
        (K.written sink.old) (K.written sink.new) (K.faults sink.old) (K.faults sink.new) result }
{
    match write_all(sink, USAGE.as_bytes()) {
        Ok(()) => flushed(REFUSED, sink),
        Err(_) => SINK_FAILED,
    }
}

/// Does all that the program does: takes the words of the command line, and the source and the sink that are handed in, and ends
/// with the status. The word `script` runs a script, as `run_script` does; all other words are refused with status 2 and the
/// usage line, and the source is not touched.
pub fn run<C: Carrier, S: Source, K: Sink>(
    alloc: Global,
    words: &Words,
    source: &mut S,
    sink: &mut K,
) -> u8
    ensures script { words.now ≡ script_words → IsScriptAnswer
        (S.left source.old) (S.left source.new) (K.written sink.old) (K.written sink.new)
        (S.faults source.old) (S.faults source.new) (K.faults sink.old) (K.faults sink.new) result }
    ensures refused { words.now ≢ script_words → IsRefusal
        (K.written sink.old) (K.written sink.new) (K.faults sink.old) (K.faults sink.new) result }
    ensures unread { words.now ≢ script_words → source.new ≡ source.old }
{
    if words.ask_for_script() {
        run_script::<C, S, K>(alloc, source, sink)
    } else {
        refuse(sink)
    }
}
