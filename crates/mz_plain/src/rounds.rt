//! Rounds are begun and applied.
ghost use Rattle.std.specs.Prelude.{◌≡◌, ◌+◌, ◌^◌, ◌<◌, ◌==◌, None, Some, length, map, option_map, IfOk, OnOk, OnErr};
ghost use Rattle.mz_oracle.specs.Rounds.{round_items, with_round};
ghost use Rattle.mz_log.specs.Log.{Log};
ghost use Rattle.mz_books.specs.Given.{Did, Does, begin_given};
ghost use Rattle.mz_books.specs.Rounds.{open_round, queued};
ghost use Rattle.mz_kept.specs.Carrying.{leaves, tells};
ghost use Rattle.mz_kept.specs.Kept.{state_of};
ghost use Rattle.mz_plain.specs.Stands.{kept, Stands};
ghost use Rattle.mz_core.specs.Told.{answered_by, begin_cause, begun_of, done_or_none, finishing_given, IsOfLog, RefusesEach};
ghost use Rattle.mz_kept.specs.Steps.{applying, beginning, carrying_out, spending};
ghost use Rattle.mz_kept.specs.Within.{IsWithin};
ghost use Rattle.mz_core.specs.declared.fault.BeginFault.TheVariants as begin;

use crate::Plain;
use crate::calls::note_commands;
use crate::carry::{add_plans, carry_out_each};
use mz_core::{BeginFault, BegunRound, RoundDone, RoundReply};
use mz_time::Time;
use mz_value::Listed;
use std::alloc::AllocError;

impl Plain {
    /// Whether no command waits, in the open round or behind it. Takes no memory. O(1).
    #[tactic(auto, using(crate::proofs::Asking::quiet_is))]
    pub fn is_queue_empty(&self) -> bool
        ensures { (log : Log) → Stands self.now log → result ≡ (length (queued log) == 0) }
    {
        self.rounds.in_round().len() == 0 && self.rounds.queued().len() == 0
    }

    // A round is begun at the time that was given last.
    fn take_commands(&mut self, time: Time) -> BegunRound
        requires none_open { self.old.rounds.in_round ≡ None }
        requires few { self.old.rounds.begun < 2 ^ 63 }
        ensures begun { result ≡ record {
          round = self.old.rounds.begun + 1;
          time = time;
          commands = length self.old.rounds.queued;
        } }
        ensures kept { kept self.new
            ≡ record (kept self.old) { rounds = with_round self.old.rounds } }
    {
        let commands = self.rounds.queued().len() as u64;
        match self.rounds.begin() {
            Ok(round) => BegunRound {
                round,
                time,
                commands,
            },
            Err(_) => unreachable!(),
        }
    }

    // No time is left: the commands that wait are refused.
    #[tactic(auto, using(crate::proofs::OfLog::queued_owned))]
    fn spend(&mut self, last: Time, now: u64) -> BeginFault
        requires { IsWithin (kept self.old) }
        ensures fault { result ≡ begin.NoTime last now self.old.rounds.queued }
        ensures kept { kept self.new
            ≡ spending (map (λ command. command.session) self.old.rounds.queued) (kept self.old) }
    {
        let commands = self.rounds.empty();
        note_commands(&mut self.sessions, commands.as_slice());
        BeginFault::NoTime {
            last,
            now,
            commands,
        }
    }

    /// Begins a round by a clock that says this, where none is open: it takes the commands that wait. Where no time is left,
    /// they are refused. Takes no memory. O(n), where n commands wait.
    #[tactic(auto, using(crate::proofs::OfLog::of_log_within))]
    pub fn begin_round(&mut self, now: u64) -> Result<BegunRound, BeginFault>
        requires { IsOfLog Stands self.old }
        ensures does { (log : Log) → Stands self.old log → Does begin_cause log
            (begin_given log now (open_round log)) (answered_by begun_of result) (Stands self.new) }
        ensures refused { (log : Log) → Stands self.old log → RefusesEach (queued log) result }
    {
        if let Some(round) = self.rounds.open_round() {
            return Err(BeginFault::RoundOpen { round });
        }
        match self.oracle.give(now) {
            Ok(time) => Ok(self.take_commands(time)),
            Err(spent) => Err(self.spend(spent.last, spent.now)),
        }
    }

    // Carries out the commands of the open round, where nothing is given up yet. After an `Err` some may be carried out.
    fn try_round(&mut self) -> Result<Vec<RoundReply>, AllocError>
        requires { IsWithin (kept self.old) }
        ensures replies { IfOk result (λ replies. replies.items
            ≡ tells (state_of (kept self.old)) (round_items self.old.rounds)) }
        ensures ok { OnOk result (kept self.new
            ≡ carrying_out (leaves (state_of (kept self.old)) (round_items self.old.rounds)) (kept self.old)) }
        ensures err { OnErr result (record (kept self.new) { database = self.old.seq.present }
            ≡ kept self.old) }
        ensures marked { self.new.seq.marked ≡ self.old.seq.marked }
    {
        let mut made = Vec::new(self.alloc);
        let replies = carry_out_each(self.alloc, &mut self.seq, &mut made, self.rounds.in_round())?;
        add_plans(self.alloc, &mut self.tables, made)?;
        Ok(replies)
    }

    // Carries out the commands of the open round, all or none.
    fn carry_out_round(&mut self) -> Result<Vec<RoundReply>, AllocError>
        requires { IsWithin (kept self.old) }
        ensures replies { IfOk result (λ replies. replies.items
            ≡ tells (state_of (kept self.old)) (round_items self.old.rounds)) }
        ensures ok { OnOk result (kept self.new
            ≡ carrying_out (leaves (state_of (kept self.old)) (round_items self.old.rounds)) (kept self.old)) }
        ensures err { OnErr result (kept self.new ≡ kept self.old) }
    {
        self.seq.start_round();
        match self.try_round() {
            Ok(replies) => Ok(replies),
            Err(error) => {
                self.seq.abandon_round();
                Err(error)
            }
        }
    }

    // The open round is applied.
    #[tactic(auto, using(crate::proofs::OfLog::round_owned))]
    fn apply(&mut self, round: u64, replies: Vec<RoundReply>) -> RoundDone
        requires { IsWithin (kept self.old) }
        ensures done { result
            ≡ record { round = round; time = self.old.oracle.last; replies = replies.items } }
        ensures kept { kept self.new
            ≡ applying (map (λ command. command.session) (round_items self.old.rounds)) (kept self.old) }
    {
        let time = self.oracle.last();
        self.oracle.apply(time);
        note_commands(&mut self.sessions, self.rounds.in_round());
        self.rounds.finish();
        RoundDone {
            round,
            time,
            replies: Listed::from_vec(replies),
        }
    }

    /// Applies the open round, where there is one: each of its commands is carried out and has its reply. After an `Err` all is
    /// as before, and the round is open still.
    #[tactic(auto, using(crate::proofs::OfLog::of_log_within))]
    pub fn finish_round(&mut self) -> Result<Option<RoundDone>, AllocError>
        requires { IsOfLog Stands self.old }
        ensures given { (log : Log) → Stands self.old log → IfOk result (λ done.
            Did log (finishing_given log (open_round log)) (done_or_none done) (Stands self.new)) }
        ensures err { (log : Log) → Stands self.old log → OnErr result (Stands self.new log) }
    {
        match self.rounds.open_round() {
            Some(round) => {
                let replies = self.carry_out_round()?;
                Ok(Some(self.apply(round, replies)))
            }
            None => Ok(None),
        }
    }
}
