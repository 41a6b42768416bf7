//! The definitions come to what they should on small scripts.
ghost use Rattle.mz_laws.specs.examples.Asking.{AsOf, Holds, Refusals};
ghost use Rattle.mz_laws.specs.examples.Cancelled.{Cancelled, Spent};
ghost use Rattle.mz_laws.specs.examples.Crashes.{Rejoined, OtherIncarnation, TooFar};
ghost use Rattle.mz_laws.specs.examples.Stale.{Stale};
ghost use Rattle.mz_laws.specs.examples.Twice.{TwoAnswer, Late, Short, Dropped};
ghost use Rattle.mz_laws.specs.examples.Missing.{NoneThere, Ticks};
ghost use Rattle.mz_laws.specs.examples.Lines.{SessionLines, WordLines, ReplicaLines, Numbers, Ends};

/// What scripts are answered with, line by line, by the definitions: feeds that are stale, packets that come late or twice, peeks whose
/// index is dropped, replicas that join again, holds, times that are named, refusals, and time that is spent. Takes no memory.
pub fn worked_examples()
    ensures stale { Stale }
    ensures none_there { NoneThere }
    ensures ticks { Ticks }
    ensures cancelled { Cancelled }
    ensures spent { Spent }
    ensures two_answer { TwoAnswer }
    ensures late { Late }
    ensures short { Short }
    ensures dropped { Dropped }
    ensures as_of { AsOf }
    ensures holds { Holds }
    ensures refusals { Refusals }
    ensures rejoined { Rejoined }
    ensures other_incarnation { OtherIncarnation }
    ensures too_far { TooFar }
{}

/// What lines say, by the definitions: lines of sessions, words with names and numbers, and what ends a line or has it skipped. Takes no memory.
pub fn worked_lines()
    ensures session_lines { SessionLines }
    ensures word_lines { WordLines }
    ensures replica_lines { ReplicaLines }
    ensures numbers { Numbers }
    ensures ends { Ends }
{}
