//! That what a log gives to each kind of call keeps it good.
ghost use Rattle.std.specs.Prelude.{◌≡◌, ◌<◌, ℕ, List, Option, None, IfSome, length};
ghost use Rattle.mz_books.specs.Clusters.{clusters};
ghost use Rattle.mz_books.specs.Entries.{after};
ghost use Rattle.mz_books.specs.Given.{begin_given, cancelling_given, closing_given, finish_given, opening_given, submission_given};
ghost use Rattle.mz_books.specs.GivenReplicas.{absorb_given, acquire_given, add_cluster_given, add_given, crash_given, downgrade_given, feed_given, rejoin_given, release_given};
ghost use Rattle.mz_books.specs.Holds.{holds};
ghost use Rattle.mz_books.specs.Legal.{MayAbsorb};
ghost use Rattle.mz_books.specs.Rounds.{open_round};
ghost use Rattle.mz_books.specs.Safe.{Good};
ghost use Rattle.mz_books.specs.Sessions.{IsOpened, outstanding};
ghost use Rattle.mz_books.specs.Streams.{live_stream, replica_cluster};
ghost use Rattle.mz_call_laws.specs.Members.{Has};
ghost use Rattle.mz_grammar.specs.Asked.{IsAsked};
ghost use Rattle.mz_grammar.specs.declared.asked.Asked.{Asked};
ghost use Rattle.mz_log.specs.Log.{Log};
ghost use Rattle.mz_plan.specs.declared.command.Place.{Place};
ghost use Rattle.mz_rules.specs.declared.capability.Hold.{Hold};

/// What is given to the calls of sessions keeps a good log good: to open one, to say a text, to cancel its call, to close it.
/// Takes no memory.
pub fn sessions_keep_logs_good()
    ensures opening { (log : Log) (name : List ℕ) → Good log
        → Good (after (opening_given log name).entries log) }
    ensures submission { (log : Log) (session call : ℕ) (text : List ℕ) (asked : Asked)
        → Good log → IsOpened log session → IsAsked text asked
        → Good (after (submission_given log session call text asked).entries log) }
    ensures cancelling { (log : Log) (session : ℕ) → Good log
        → Good (after (cancelling_given log session (outstanding log session)).entries log) }
    ensures closing { (log : Log) (session : ℕ) → Good log → IsOpened log session
        → Good (after (closing_given log session).entries log) }
{}

/// So does what is given to the two halves of a round, also where no time is left. Takes no memory.
pub fn rounds_keep_logs_good()
    ensures begun { (log : Log) (now : ℕ) → Good log
        → Good (after (begin_given log now (open_round log)).entries log) }
    ensures finished { (log : Log) → Good log
        → Good (after (finish_given log (open_round log)).entries log) }
{}

/// So does what is given to replicas and clusters: to lose one, to join again, to add one. Takes no memory.
pub fn replicas_keep_logs_good()
    ensures crash { (log : Log) (replica : List ℕ) → Good log
        → Good (after (crash_given log replica).entries log) }
    ensures rejoin { (log : Log) (replica : List ℕ) → Good log
        → Good (after (rejoin_given log replica (replica_cluster log replica)).entries log) }
    ensures add { (log : Log) (replica : List ℕ) (cluster : Option ℕ) → Good log
        → IfSome cluster (λ own. own < length (clusters log))
        → Good (after (add_given log replica cluster).entries log) }
    ensures add_cluster { (log : Log) (name : List ℕ) → Good log
        → Good (after (add_cluster_given log name).entries log) }
{}

/// So does what is given to a feed for any place, and to a packet that may be absorbed. Takes no memory.
pub fn feeds_keep_logs_good()
    ensures feed { (log : Log) (replica : List ℕ) (place : Place) (upto : Option ℕ) → Good log
        → Good (after (feed_given log (live_stream log replica) place upto).entries log) }
    ensures absorbed { (log : Log) (replica : List ℕ) (incarnation turn taken ready : ℕ)
        (frontiers : List (ℕ × ℕ)) → Good log
        → MayAbsorb log replica incarnation taken ready frontiers
        → Good (after (absorb_given log replica incarnation turn taken ready frontiers).entries
        log) }
{}

/// So does what is given to take a hold on a name, and to move on or give back a live hold that no BEGIN took.
/// Takes no memory.
pub fn holds_keep_logs_good()
    ensures acquire { (log : Log) (name : List ℕ) (time : ℕ) → Good log
        → Good (after (acquire_given log name time).entries log) }
    ensures downgrade { (log : Log) (hold : Hold) (time : ℕ) → Good log → Has hold (holds log)
        → hold.owner ≡ None → Good (after (downgrade_given log hold time).entries log) }
    ensures release { (log : Log) (hold : Hold) → Good log → Has hold (holds log)
        → hold.owner ≡ None → Good (after (release_given log hold.number).entries log) }
{}
