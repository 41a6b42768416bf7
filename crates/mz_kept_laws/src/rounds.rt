//! Rounds are begun and applied, and reads have their rows.
ghost use Rattle.std.specs.Prelude.{◌≡◌, ℕ, ◌+◌, List, None, Some, Ok, Err, length, map};
ghost use Rattle.mz_books.specs.Given.{Did, RoundOpen, NoTime, begin_given};
ghost use Rattle.mz_books.specs.Rounds.{open_round, queued};
ghost use Rattle.mz_frames.specs.Turns.{IsTurn};
ghost use Rattle.mz_kept.specs.Carrying.{leaves, tells};
ghost use Rattle.mz_kept.specs.Kept.{Kept, state_of};
ghost use Rattle.mz_core.specs.Told.{command_of, finishing_given, reads_of};
ghost use Rattle.mz_kept.specs.Standing.{StandsFor};
ghost use Rattle.mz_kept.specs.Steps.{applying, beginning, carrying_out, finishing, spending};
ghost use Rattle.mz_core.specs.declared.calls.Waiting.{Waiting};
ghost use Rattle.mz_log.specs.Log.{Log};
ghost use Rattle.mz_oracle.specs.Oracle.{given};
ghost use Rattle.mz_oracle.specs.declared.fault.TimeSpent.{TimeSpent};

/// Where a round is open none is begun, and all stays as it is. Where none is open, all commands that
/// wait are queued in the log: a round begins with them at the time that is given, or, where none is
/// left, they are refused. Takes no memory.
pub fn rounds_are_begun()
    ensures refused { (kept : Kept) (log : Log) (commands : List Waiting) (now : ℕ)
        → StandsFor kept log → kept.rounds.in_round ≡ Some commands
        → Did log (begin_given log now (open_round log)) (Err (RoundOpen kept.rounds.begun))
        (StandsFor kept) }
    ensures queued { (kept : Kept) (log : Log) → StandsFor kept log → kept.rounds.in_round ≡ None
        → map command_of kept.rounds.queued ≡ queued log }
    ensures begun { (kept : Kept) (log : Log) (now time : ℕ) → StandsFor kept log
        → kept.rounds.in_round ≡ None → given kept.oracle.last now ≡ Ok time
        → Did log (begin_given log now (open_round log)) (Ok (record {
          round = kept.rounds.begun + 1;
          time = time;
          commands = length kept.rounds.queued;
        })) (StandsFor (beginning time kept)) }
    ensures spent { (kept : Kept) (log : Log) (now : ℕ) (why : TimeSpent) → StandsFor kept log
        → kept.rounds.in_round ≡ None → given kept.oracle.last now ≡ Err why
        → Did log (begin_given log now (open_round log)) (Err (NoTime why.last why.now))
        (StandsFor (spending (map (λ command. command.session) kept.rounds.queued) kept)) }
{}

/// The open round is applied, where there is one: its commands are told what the sequential object
/// tells them one after another, and the state is what they leave. Takes no memory.
pub fn rounds_are_applied()
    ensures none_open { (kept : Kept) (log : Log) → StandsFor kept log → kept.rounds.in_round ≡ None
        → Did log (finishing_given log (open_round log)) (Err tt) (StandsFor kept) }
    ensures applied { (kept : Kept) (log : Log) (commands : List Waiting) → StandsFor kept log
        → kept.rounds.in_round ≡ Some commands
        → Did log (finishing_given log (open_round log)) (Ok (record {
          round = kept.rounds.begun;
          time = kept.oracle.last;
          replies = tells (state_of kept) commands;
        })) (StandsFor (applying (map (λ command. command.session) commands)
        (carrying_out (leaves (state_of kept) commands) kept))) }
{}

/// The reads that wait are those of the log, each with its rows, and a turn leaves none. Takes no
/// memory.
pub fn reads_are_finished()
    ensures reads { (kept : Kept) (log : Log) → StandsFor kept log → kept.reads ≡ reads_of log }
    ensures turned { (kept : Kept) (log later : Log) → StandsFor kept log → IsTurn log later
        → StandsFor (finishing (map (λ read. read.session) kept.reads) kept) later }
{}
