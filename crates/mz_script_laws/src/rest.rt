//! Machines at rest stay so.
ghost use Rattle.std.specs.Prelude.{ℕ, List};
ghost use Rattle.mz_books.specs.GivenReplicas.{add_cluster_given};
ghost use Rattle.mz_grammar.specs.Asked.{IsAsked};
ghost use Rattle.mz_grammar.specs.declared.asked.Asked.{Asked};
ghost use Rattle.mz_script.specs.LineEvents.{commits_if_queued, settles, turns_all};
ghost use Rattle.mz_script.specs.Machine.{added};
ghost use Rattle.mz_script.specs.Script.{begins, cancels, closes, commits, finishes, finishes_if_open, free_hold, gives_back, moves_hold, session_place, session_says};
ghost use Rattle.mz_script.specs.ScriptLine.{Machine, opening_machine};
ghost use Rattle.mz_script_laws.specs.Rest.{IsAtRest};

/// The machine in which nothing has happened is at rest. Takes no memory.
#[tactic(auto, using(crate::proofs::Resting::opening_rests))]
pub fn the_opening_is_at_rest()
    ensures { IsAtRest opening_machine }
{}

/// A machine stays at rest as a session says a text, whatever that asks for. Takes no memory.
#[tactic(auto, using(crate::proofs::SessionLines::session_rests))]
pub fn calls_keep_machines_at_rest()
    ensures { (machine : Machine) (name text : List ℕ) (asked : Asked) → IsAsked text asked
        → IsAtRest machine
        → IsAtRest (session_says machine name text asked (session_place machine.log name)).machine }
{}

/// A machine stays at rest as rounds begin and are applied. Takes no memory.
pub fn rounds_keep_machines_at_rest()
    ensures begins { (machine : Machine) → IsAtRest machine → IsAtRest (begins machine).machine }
    ensures finishes { (machine : Machine) → IsAtRest machine → IsAtRest (finishes machine).machine }
    ensures if_open { (machine : Machine) → IsAtRest machine
        → IsAtRest (finishes_if_open machine).machine }
    ensures commits { (machine : Machine) → IsAtRest machine → IsAtRest (commits machine).machine }
    ensures if_queued { (machine : Machine) → IsAtRest machine
        → IsAtRest (commits_if_queued machine).machine }
{}

/// A machine stays at rest as its replicas make a turn, and as it settles. Takes no memory.
pub fn settling_keeps_machines_at_rest()
    ensures turns { (machine : Machine) → IsAtRest machine → IsAtRest (turns_all machine).machine }
    ensures settles { (machine : Machine) → IsAtRest machine → IsAtRest (settles machine).machine }
{}

/// A machine stays at rest as calls are cancelled, sessions closed and clusters added, and as live holds
/// that no BEGIN took are moved on or given back. Takes no memory.
pub fn other_lines_keep_machines_at_rest()
    ensures cancels { (machine : Machine) (name : List ℕ) → IsAtRest machine
        → IsAtRest (cancels machine name (session_place machine.log name)).machine }
    ensures closes { (machine : Machine) (name : List ℕ) → IsAtRest machine
        → IsAtRest (closes machine name (session_place machine.log name)).machine }
    ensures clusters { (machine : Machine) (name : List ℕ) → IsAtRest machine
        → IsAtRest (added machine name (add_cluster_given machine.log name)
        (add_cluster_given machine.log name).answer).machine }
    ensures moves { (machine : Machine) (hold time : ℕ) → IsAtRest machine
        → IsAtRest (moves_hold machine hold time (free_hold machine.log hold)).machine }
    ensures gives_back { (machine : Machine) (hold : ℕ) → IsAtRest machine
        → IsAtRest (gives_back machine hold (free_hold machine.log hold)).machine }
{}
