//! Sessions are opened and make calls.
ghost use Rattle.std.specs.List.{list_any};
ghost use Rattle.std.specs.Prelude.{◌≡◌, ◌∷◌, ◌+◌, ◌-◌, ◌<◌, ◌≤◌, ℕ, List, [], Some, None, Ok, Err, bytes_eq, false, length, map, nat_le, true};
ghost use Rattle.mz_refusal.specs.declared.refusal.Limited.TheVariants.{Calls, Sessions};
ghost use Rattle.mz_refusal.specs.declared.refusal.Refusal.TheVariants as refusal;
ghost use Rattle.mz_grammar.specs.Asked.{IsAsked};
ghost use Rattle.mz_grammar.specs.declared.asked.Asked.{Asked};
ghost use Rattle.mz_log.specs.Log.{Log};
ghost use Rattle.mz_log.specs.declared.entry.Entry.{Entry};
ghost use Rattle.mz_books.specs.Answer.{most_calls};
ghost use Rattle.mz_books.specs.Given.{Did, opening_given};
ghost use Rattle.mz_books.specs.Holds.{pending};
ghost use Rattle.mz_books.specs.Legal.{Legal, most_sessions};
ghost use Rattle.mz_script_laws.specs.Plain.{IsPlainAsked};
ghost use Rattle.mz_core.specs.declared.calls.Submitted.{Submitted};
ghost use Rattle.mz_kept.specs.Kept.{Kept, nothing};
ghost use Rattle.mz_core.specs.Told.{read_of, submitting_given, IsNumberOf};
ghost use Rattle.mz_kept.specs.Standing.{StandsFor};
ghost use Rattle.mz_kept.specs.Steps.{opened, session_at};
ghost use Rattle.mz_kept.specs.Taken.{IsTaken};

/// Where nothing is kept, that is what the empty log has. Takes no memory.
pub fn nothing_stands_for_the_empty_log()
    ensures { StandsFor nothing [] }
{}

/// A session is opened as the log gives it: under a new name, as long as there are fewer than the
/// most. What is kept stands for the log with it then, and else for the log as it was. Takes no
/// memory.
pub fn sessions_are_opened()
    ensures taken { (kept : Kept) (log : Log) (name : List ℕ) → StandsFor kept log
        → list_any (bytes_eq name) kept.names ≡ true
        → Did log (opening_given log name) (Err (refusal.NameTaken name)) (StandsFor kept) }
    ensures many { (kept : Kept) (log : Log) (name : List ℕ) → StandsFor kept log
        → list_any (bytes_eq name) kept.names ≡ false → most_sessions ≤ length kept.names
        → Did log (opening_given log name) (Err (refusal.TooMany Sessions most_sessions))
        (StandsFor kept) }
    ensures opened { (kept : Kept) (log : Log) (name : List ℕ) → StandsFor kept log
        → list_any (bytes_eq name) kept.names ≡ false → length kept.names < most_sessions
        → Did log (opening_given log name) (Ok (length kept.names + 1))
        (StandsFor (opened name kept)) }
{}

/// A session that waits for a reply makes no call, nor does any once there are as many calls as
/// there may be: the log refuses it so, and what is kept stands for it still. Takes no memory.
pub fn some_calls_are_not_made()
    ensures busy { (kept : Kept) (log : Log) (session : ℕ) (text : List ℕ) (asked : Asked)
        (call : ℕ) → StandsFor kept log → IsNumberOf (length kept.names) session
        → (session_at kept.sessions (session - 1)).outstanding ≡ Some call
        → Did log (submitting_given log session text asked) (Err (refusal.Busy call))
        (StandsFor kept) }
    ensures crowded { (kept : Kept) (log : Log) (session : ℕ) (text : List ℕ) (asked : Asked)
        → StandsFor kept log → IsNumberOf (length kept.names) session
        → (session_at kept.sessions (session - 1)).outstanding ≡ None
        → nat_le most_calls kept.calls ≡ true
        → Did log (submitting_given log session text asked)
        (Err (refusal.TooMany Calls most_calls)) (StandsFor kept) }
{}

/// A session that waits for no reply makes a call, as long as there are fewer than the most. Where
/// its command is queued, its query read over the tables of now, or its call refused, as what it asks
/// for is taken, the log gives it that, and what is kept stands for the log with it. Takes no memory.
pub fn calls_are_taken()
    ensures { (kept new : Kept) (log : Log) (session : ℕ) (text : List ℕ) (asked : Asked)
        (told : Submitted) → StandsFor kept log → IsNumberOf (length kept.names) session
        → (session_at kept.sessions (session - 1)).outstanding ≡ None → kept.calls < most_calls
        → IsAsked text asked → IsPlainAsked asked → IsTaken kept new session asked told
        → Did log (submitting_given log session text asked) (Ok (Some told)) (StandsFor new) }
{}

/// The reads that wait have the same rows once a legal log has an entry more. Takes no memory.
#[tactic(auto, using(crate::proofs::WaitingRows::reads_stay))]
pub fn waiting_rows_stay()
    ensures { (log : Log) (entry : Entry) → Legal (entry ∷ log)
        → map (read_of (entry ∷ log)) (pending log) ≡ map (read_of log) (pending log) }
{}
