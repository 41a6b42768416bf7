//! Scripts of lines that are built, and of others, which are counted.
ghost use Rattle.std.specs.List.{AllByRecursion as Each};
ghost use Rattle.std.specs.Prelude.{ℕ, List, map};
ghost use Rattle.mz_books.specs.Safe.{Good};
ghost use Rattle.mz_script.specs.Built.{after_built_line, after_built_lines};
ghost use Rattle.mz_script.specs.Lines.{line_says};
ghost use Rattle.mz_script.specs.ScriptLine.{Machine, opening_machine};
ghost use Rattle.mz_script.specs.declared.script_line.ScriptLine.{ScriptLine};
ghost use Rattle.mz_script_laws.specs.Plain.{IsPlainLog};
ghost use Rattle.mz_script_laws.specs.Rest.{IsAtRest, IsHonest};

/// Each line leaves a machine at rest with a plain log so: one that is built by what it does, and any
/// other by being counted. Takes no memory.
pub fn lines_keep_machines_at_rest()
    ensures rest { (machine : Machine) (line : ScriptLine) → IsHonest line → IsAtRest machine
        → IsPlainLog machine.log → IsAtRest (after_built_line machine line).machine }
    ensures plain { (machine : Machine) (line : ScriptLine) → IsHonest line → IsAtRest machine
        → IsPlainLog machine.log → IsPlainLog (after_built_line machine line).machine.log }
{}

/// A script leaves a machine at rest, with a good and plain log: its history replays on the sequential
/// object, and no since and nothing that a replica was told passes a held or pending time. Takes no
/// memory.
pub fn scripts_leave_good_logs()
    ensures rest { (lines : List ScriptLine) → Each IsHonest lines
        → IsAtRest (after_built_lines lines opening_machine).machine }
    ensures plain { (lines : List ScriptLine) → Each IsHonest lines
        → IsPlainLog (after_built_lines lines opening_machine).machine.log }
    ensures good { (lines : List ScriptLine) → Each IsHonest lines
        → Good (after_built_lines lines opening_machine).machine.log }
{}

/// What a line of bytes says is honest, so each script leaves a good log. Takes no memory.
pub fn each_script_leaves_a_good_log()
    ensures honest { (line : List ℕ) → IsHonest (line_says line) }
    ensures good { (lines : List (List ℕ))
        → Good (after_built_lines (map line_says lines) opening_machine).machine.log }
{}
