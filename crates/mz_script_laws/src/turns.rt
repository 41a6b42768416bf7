//! Turns: the one replica of a machine is fed, and its packet answers each pending peek.
ghost use Rattle.std.specs.Prelude.{◌≡◌, []};
ghost use Rattle.mz_script.specs.LineEvents.{turns_all};
ghost use Rattle.mz_script.specs.ScriptLine.{Machine};
ghost use Rattle.mz_script_laws.specs.Rest.{IsAtRest};
ghost use Rattle.mz_script_laws.specs.Turns.{Turned};

/// A machine at rest makes a turn as its replicas do: its log is one turn longer, each pending peek is
/// told its rows, in order, and nothing else changes but the place of its replica. Takes no memory.
pub fn turns_answer_all()
    ensures { (machine : Machine) → IsAtRest machine
        → Turned machine (turns_all machine) }
{}

/// After a turn no peek is pending, so a second one says nothing. Takes no memory.
#[tactic(auto, using(crate::proofs::Settling::second_quiet))]
pub fn second_turns_are_quiet()
    ensures { (machine : Machine) → IsAtRest machine
        → (turns_all (turns_all machine).machine).text ≡ [] }
{}
