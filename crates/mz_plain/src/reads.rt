//! Reads have their rows.
ghost use Rattle.std.specs.Prelude.{◌≡◌, map};
ghost use Rattle.mz_log.specs.Log.{Log};
ghost use Rattle.mz_frames.specs.Turns.{IsTurn};
ghost use Rattle.mz_plain.specs.Stands.{kept, Stands};
ghost use Rattle.mz_core.specs.Told.{reads_of, IsOfLog};
ghost use Rattle.mz_kept.specs.Steps.{finishing};
ghost use Rattle.mz_kept.specs.Within.{IsWithin};

use crate::Plain;
use crate::calls::note_reads;
use mz_core::FinishedRead;
use std::mem;

impl Plain {
    // All reads that wait, which have their rows now.
    #[tactic(auto, using(crate::proofs::OfLog::reads_owned))]
    fn take_reads(&mut self) -> Vec<FinishedRead>
        requires { IsWithin (kept self.old) }
        ensures reads { result.items ≡ (kept self.old).reads }
        ensures kept { kept self.new
            ≡ finishing (map (λ read. read.session) (kept self.old).reads) (kept self.old) }
    {
        let reads = mem::replace(&mut self.reads, Vec::new(self.alloc));
        note_reads(&mut self.sessions, &reads);
        reads
    }

    /// Gives all reads that wait their rows, in order of their peeks. Takes no memory. O(n), where n reads wait.
    #[tactic(auto, using(crate::proofs::OfLog::of_log_within))]
    pub fn finish_reads(&mut self) -> Vec<FinishedRead>
        requires { IsOfLog Stands self.old }
        ensures reads { (log : Log) → Stands self.old log → result.items ≡ reads_of log }
        ensures turned { (log later : Log) → Stands self.old log → IsTurn log later
            → Stands self.new later }
    {
        self.take_reads()
    }
}
