//! The machine of a script over a core.
ghost use Rattle.std.specs.Prelude.{◌≡◌, ◌<◌, ◌+◌, ◌++◌, ℕ, List, true, length, OnOk, IfOk, string_bytes};
ghost use Rattle.mz_grammar.specs.Asked.{IsAsked};
ghost use Rattle.mz_books.specs.Given.{begin_given, opening_given, Does};
ghost use Rattle.mz_books.specs.Rounds.{open_round};
ghost use Rattle.mz_script.specs.Built.{IsHeard, after_built_line, is_built, is_built_asked};
ghost use Rattle.mz_script.specs.LineEvents.{commits_if_queued, does, settles, turns_all};
ghost use Rattle.mz_script.specs.Script.{begins, commits, finishes, finishes_if_open, session_place, session_says, submits};
ghost use Rattle.mz_script.specs.ScriptLine.{Machine, opening_machine, with_log};
ghost use Rattle.mz_shell.specs.Carrier.{IsCarrying, most_lines};
ghost use Rattle.mz_world.specs.Standing.{Carries, CarriesAtRest, HasMachine, IsOf, StandsFor, is_begun};
ghost use Rattle.mz_core.specs.Told.{cause, IsNumberOf, IsSpelled};

use crate::texts::{write_fault, write_reads, write_round, write_submitted};
use mz_core::Core;
use mz_grammar::Asked;
use mz_refusal::CallFault;
use mz_script::{
    ScriptLine, write_begun, write_no_round, write_refused, write_unbuilt, write_unreadable,
};
use mz_shell::Carrier;
use mz_time::Time;
use mz_value::Name;
use std::alloc::{AllocError, Global};

/// What is kept of a script. Memory follows the core.
#[derive(Drop)]
pub struct World<C> {
    // What sessions, rounds and reads are carried out over.
    core: C,
    // What the clock says.
    moment: Time,
    // How many lines were read.
    lines: u64,
    // Where names are copied.
    alloc: Global,
}

impl<C: Core> World<C> {
    /// Nothing has happened, and the first replica is there.
    pub fn opening(alloc: Global) -> Result<World<C>, AllocError>
        ensures stands { IfOk result (λ world. StandsFor C.stands world opening_machine) }
        ensures lines { IfOk result (λ world. world.lines ≡ 0) }
    {
        let core = C::fresh(alloc)?;
        Ok(World {
            core,
            moment: Time::zero(),
            lines: 0,
            alloc,
        })
    }

    // ---- sessions

    // The session of this name and number says what asks for this.
    fn submit(
        &mut self,
        name: &Name,
        session: u64,
        asked: Asked,
        text: &mut String,
    ) -> Result<(), AllocError>
        requires machine { HasMachine C.stands self.old }
        requires session { IsNumberOf (length (C.names self.old.core)) session }
        requires asks { IsSpelled asked }
        requires built { is_built_asked asked ≡ true }
        ensures carries { OnOk result ((said : List ℕ) → IsAsked said asked → Carries C.stands
            self.old self.new (string_bytes text.old) (string_bytes text.new)
            (submits name.now session said asked)) }
        ensures lines { self.new.lines ≡ self.old.lines }
    {
        match self.core.submit(session, asked) {
            Ok(told) => write_submitted(text, name, &told),
            Err(CallFault::Refused(refusal)) => write_refused(text, name.as_str(), &refusal),
            Err(CallFault::Memory) => Err(AllocError),
        }
    }

    // Opens a session under this name: its number.
    fn open(&mut self, name: &Name) -> Result<u64, CallFault>
        requires { HasMachine C.stands self.old }
        ensures given { (machine : Machine) → IsOf C.stands self.old machine
            → Does cause machine.log (opening_given machine.log name.now) result
            (λ log. IsOf C.stands self.new (with_log machine log)) }
        ensures number { IfOk result (λ session. IsNumberOf (length (C.names self.new.core)) session) }
        ensures lines { self.new.lines ≡ self.old.lines }
    {
        let name = name.try_copy(self.alloc)?;
        self.core.open_session(name)
    }

    // The session of this name says what asks for this. It is opened at its first line.
    fn says(&mut self, name: &Name, asked: Asked, text: &mut String) -> Result<(), AllocError>
        requires machine { HasMachine C.stands self.old }
        requires asks { IsSpelled asked }
        requires built { is_built_asked asked ≡ true }
        ensures carries { OnOk result ((said : List ℕ) → IsAsked said asked → Carries C.stands
            self.old self.new (string_bytes text.old) (string_bytes text.new) (λ machine.
            session_says machine name.now said asked (session_place machine.log name.now))) }
        ensures lines { self.new.lines ≡ self.old.lines }
    {
        let names = self.core.names();
        // So few names are kept that each has its number.
        let _count = names.len();
        if let Some(place) = names.get_index_of(name) {
            return self.submit(name, place as u64 + 1, asked, text);
        }
        match self.open(name) {
            Ok(session) => self.submit(name, session, asked, text),
            Err(CallFault::Refused(refusal)) => write_refused(text, name.as_str(), &refusal),
            Err(CallFault::Memory) => Err(AllocError),
        }
    }

    // ---- rounds

    // Begins a round at what the clock says: whether it was begun.
    fn begin(&mut self, text: &mut String) -> Result<bool, AllocError>
        requires { HasMachine C.stands self.old }
        ensures carries { OnOk result (Carries C.stands self.old self.new
            (string_bytes text.old) (string_bytes text.new) begins) }
        ensures begun { IfOk result (λ begun. (machine : Machine) → IsOf C.stands self.old machine
            → begun ≡ is_begun machine) }
        ensures lines { self.new.lines ≡ self.old.lines }
    {
        match self.core.begin_round(self.moment.number()) {
            Ok(begun) => {
                write_begun(text, begun.round, begun.time, begun.commands)?;
                Ok(true)
            }
            Err(fault) => {
                write_fault(text, self.core.names(), &fault)?;
                Ok(false)
            }
        }
    }

    // Applies the open round, if there is one.
    fn finish_if_open(&mut self, text: &mut String) -> Result<(), AllocError>
        requires { HasMachine C.stands self.old }
        ensures carries { OnOk result (Carries C.stands self.old self.new
            (string_bytes text.old) (string_bytes text.new) finishes_if_open) }
        ensures lines { self.new.lines ≡ self.old.lines }
    {
        match self.core.finish_round()? {
            Some(done) => write_round(text, self.core.names(), &done),
            None => Ok(()),
        }
    }

    // Applies the open round.
    fn finish(&mut self, text: &mut String) -> Result<(), AllocError>
        requires { HasMachine C.stands self.old }
        ensures carries { OnOk result (Carries C.stands self.old self.new
            (string_bytes text.old) (string_bytes text.new) finishes) }
        ensures lines { self.new.lines ≡ self.old.lines }
    {
        match self.core.finish_round()? {
            Some(done) => write_round(text, self.core.names(), &done),
            None => write_no_round(text),
        }
    }

    // Begins a round, and applies it where it was begun.
    fn commit(&mut self, text: &mut String) -> Result<(), AllocError>
        requires { HasMachine C.stands self.old }
        ensures carries { OnOk result (Carries C.stands self.old self.new
            (string_bytes text.old) (string_bytes text.new) commits) }
        ensures lines { self.new.lines ≡ self.old.lines }
    {
        if !self.begin(text)? {
            return Ok(());
        }
        self.finish_if_open(text)
    }

    // Begins a round and applies it, where a command waits.
    fn commit_if_queued(&mut self, text: &mut String) -> Result<(), AllocError>
        requires { HasMachine C.stands self.old }
        ensures carries { OnOk result (Carries C.stands self.old self.new
            (string_bytes text.old) (string_bytes text.new) commits_if_queued) }
        ensures lines { self.new.lines ≡ self.old.lines }
    {
        if self.core.is_queue_empty() {
            return Ok(());
        }
        self.commit(text)
    }

    // ---- turns

    // All live replicas make a turn: each read that waits has its rows.
    fn turn(&mut self, text: &mut String) -> Result<(), AllocError>
        requires { IsCarrying (StandsFor C.stands self.old) }
        ensures carries { OnOk result (CarriesAtRest C.stands self.old self.new
            (string_bytes text.old) (string_bytes text.new) turns_all) }
        ensures lines { self.new.lines ≡ self.old.lines }
    {
        let reads = self.core.finish_reads();
        write_reads(text, self.core.names(), reads.as_slice())
    }

    // Applies the open round, makes a round where a command waits, and has all live replicas make two turns.
    fn settle(&mut self, text: &mut String) -> Result<(), AllocError>
        requires { IsCarrying (StandsFor C.stands self.old) }
        ensures carries { OnOk result (CarriesAtRest C.stands self.old self.new
            (string_bytes text.old) (string_bytes text.new) settles) }
        ensures lines { self.new.lines ≡ self.old.lines }
    {
        self.finish_if_open(text)?;
        self.commit_if_queued(text)?;
        self.turn(text)?;
        self.turn(text)
    }

    // ---- lines

    // Does what a line says that is built. The line is counted already.
    fn follow(&mut self, line: ScriptLine, text: &mut String) -> Result<(), AllocError>
        requires machine { IsCarrying (StandsFor C.stands self.old) }
        requires heard { IsHeard line }
        requires built { is_built line ≡ true }
        ensures carries { OnOk result (CarriesAtRest C.stands self.old self.new
            (string_bytes text.old) (string_bytes text.new) (λ machine. does machine machine.lines line)) }
        ensures lines { self.new.lines ≡ self.old.lines }
    {
        match line {
            ScriptLine::Unreadable => write_unreadable(text, self.lines),
            ScriptLine::Says { name, asked, .. } => self.says(&name, asked, text),
            ScriptLine::Tick(moment) => {
                self.moment = moment;
                Ok(())
            }
            ScriptLine::BeginRound => {
                self.begin(text)?;
                Ok(())
            }
            ScriptLine::FinishRound => self.finish(text),
            ScriptLine::CommitRound => self.commit(text),
            ScriptLine::Settle => self.settle(text),
            _ => Ok(()),
        }
    }

    /// Does what a line says, and writes its text behind the text. After an `Err` it may stand for nothing, and a front of the
    /// line's text may stand there. Cost: that of the core's calls, and the text.
    pub fn carry_out(&mut self, line: ScriptLine, text: &mut String) -> Result<(), AllocError>
        requires machine { IsCarrying (StandsFor C.stands self.old) }
        requires heard { IsHeard line }
        requires few { self.old.lines < most_lines }
        ensures carries { OnOk result (CarriesAtRest C.stands self.old self.new (string_bytes text.old)
            (string_bytes text.new) (λ machine. after_built_line machine line)) }
        ensures counted { OnOk result (self.new.lines ≡ self.old.lines + 1) }
    {
        self.lines += 1;
        if !line.is_built() {
            return write_unbuilt(text, self.lines);
        }
        self.follow(line, text)
    }
}

impl<C: Core> Carrier for World<C> {
    ghost stands = { StandsFor C.stands };

    ghost lines = { λ world. world.lines };

    fn fresh(alloc: Global) -> Result<World<C>, AllocError> {
        World::opening(alloc)
    }

    fn line(&mut self, line: ScriptLine, text: &mut String) -> Result<(), AllocError> {
        self.carry_out(line, text)
    }

    ghost legal = { λ _ _ stands. stands.rest.legal };
}
