//! The laws of journals, each as what a function with an empty body ensures.
ghost use Rattle.std.specs.Prelude.{◌≡◌, ◌∷◌, [], ℕ, List, IsPermutation, filter, if◌then◌else◌, map};
ghost use Rattle.std.specs.List.Sorted.{IsNonDecreasingBy};
ghost use Rattle.mz_log.specs.declared.journal.CallEntry.{CallEntry};
ghost use Rattle.mz_log.specs.declared.reply.Reply.{Reply};
ghost use Rattle.mz_journal.specs.Journal.{is_waiting, with_reply, answered};
ghost use Rattle.mz_journal.specs.History.{by_time, calls_at};

/// The history of any calls has each of them once, no time in it falls, and the calls of one time stand in their order. Takes
/// no memory.
#[tactic(auto, using(crate::proofs::Sorting::history_laws))]
pub fn history_is_sorted()
    ensures all_calls { (calls : List CallEntry) → IsPermutation calls (by_time calls) }
    ensures rises { (calls : List CallEntry) → IsNonDecreasingBy (λ call. call.time) (by_time calls) }
    ensures is_stable { (calls : List CallEntry) (time : ℕ)
        → calls_at time (by_time calls) ≡ calls_at time calls }
{}

/// Any calls are sorted so in one way: a list whose times never fall, with the calls of each time in their order, is their
/// history. Takes no memory.
pub fn sorted_is_history()
    ensures { (calls sorted : List CallEntry) → IsNonDecreasingBy (λ call. call.time) sorted
        → ((time : ℕ) → calls_at time sorted ≡ calls_at time calls) → sorted ≡ by_time calls }
{}

/// Where one call waits under a number of a session, it gets the reply wherever it stands, and no other call changes. Takes no
/// memory.
#[tactic(auto, using(crate::proofs::ReplyLemmas::answered_alone))]
pub fn one_is_answered()
    ensures { (session call time : ℕ) (reply : Reply) (calls : List CallEntry) (entry : CallEntry)
        → filter (is_waiting session call) calls ≡ entry ∷ []
        → answered session call time reply calls
        ≡ map (λ other. if is_waiting session call other then with_reply time reply other else other) calls }
{}
