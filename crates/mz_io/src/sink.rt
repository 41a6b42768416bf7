//! Where bytes go, and the writing of a whole piece.
ghost use Rattle.std.specs.Prelude.{◌≡◌, ◌<◌, ℕ, List, length, IfOk, OnOk};
ghost use Rattle.std.specs.declared.option.Option.{Option};
ghost use Rattle.std.specs.Io.{WritesAtMost};
ghost use Rattle.std.specs.Io.KnownBytes.{Appends, Keeps, WriteAppends};
ghost use Rattle.mz_io.specs.Causes.{HasCause, Rose};
ghost use Rattle.mz_io.specs.Written.{AppendsFront};

use super::source::Failed;

/// A sink of bytes.
pub trait Sink {
    /// The bytes that were written, where the sink can tell. Once told, they stay told.
    ghost written: { Self → Option (List ℕ) };

    /// How often the sink has failed. It never falls, and stays at 2 ^ 64 - 1 once it is there.
    ghost faults: { Self → ℕ };

    /// Writes a front of `piece`, and says how many bytes it has. At `Failed` nothing was written, and the count of faults
    /// rose. It also rose at `Ok(0)` for a piece that isn't empty. A sink that finds no memory has failed.
    fn write(&mut self, piece: &[u8]) -> Result<usize, Failed>
        ensures bound { WritesAtMost result piece.now }
        ensures bytes { WriteAppends (written self.old) (written self.new) result piece.now }
        ensures cause { HasCause (faults self.old) (faults self.new) result }
        ensures none { IfOk result (λ count.
            count ≡ 0 → 0 < length piece.now → Rose (faults self.old) (faults self.new)) };

    /// Passes on what was written. Each answer leaves what was written as it was.
    fn flush(&mut self) -> Result<(), Failed>
        ensures bytes { Keeps (written self.old) (written self.new) }
        ensures cause { HasCause (faults self.old) (faults self.new) result };
}

/// Writes all of `piece`, by as many calls of `write` as it takes. At `Failed` some front of it was written.
/// A sink that takes nothing counts as failed. Takes no memory.
pub fn write_all<K: Sink>(sink: &mut K, piece: &[u8]) -> Result<(), Failed>
    ensures ok { OnOk result (Appends (K.written sink.old) (K.written sink.new) piece.now) }
    ensures front { AppendsFront (K.written sink.old) (K.written sink.new) piece.now }
    ensures cause { HasCause (K.faults sink.old) (K.faults sink.new) result }
{
    let mut done = 0;
    'pieces: while done < piece.len() {
        let count = sink.write(&piece[done..])?;
        if count == 0 {
            return Err(Failed);
        }
        done += count;
    }
    Ok(())
}
