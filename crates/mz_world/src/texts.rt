//! Writes the texts of calls behind a text, by the names of sessions in order of opening. An `Err` leaves a front of it there.
ghost use Rattle.std.specs.Prelude.{◌≡◌, ◌++◌, OnOk, string_bytes};
ghost use Rattle.mz_world.specs.Texts.{fault_text, name_in, reads_text, refusals_text, replies_text, round_text, submitted_text};

use indexmap::IndexSet;
use mz_core::{BeginFault, FinishedRead, RoundDone, RoundReply, Submitted, Waiting};
use mz_refusal::Refusal;
use mz_script::{
    write_call_refused, write_done, write_finished, write_open, write_queued, write_reading,
    write_replied, write_spent,
};
use mz_time::Time;
use mz_value::Name;
use std::alloc::AllocError;

// The name of the session of this number; nothing where it wasn't opened.
fn name_of(names: &IndexSet<Name>, session: u64) -> &str
    ensures { result.now ≡ name_in names.now.keys session }
{
    match names.get_index(session.saturating_sub(1) as usize) {
        Some(name) => name.as_str(),
        None => "",
    }
}

/// What became of a call of the session of this name.
pub fn write_submitted(text: &mut String, name: &Name, told: &Submitted) -> Result<(), AllocError>
    ensures { OnOk result
        (string_bytes text.new ≡ string_bytes text.old ++ submitted_text name.now told.now) }
{
    let name = name.as_str();
    match told {
        Submitted::Queued(call) => write_queued(text, name, *call),
        Submitted::Reading(call, time, peek) => write_reading(text, name, *call, *time, *peek),
        Submitted::Refused(call, refusal) => write_call_refused(text, name, *call, refusal),
    }
}

// That each of these commands is refused, since no time is left after the last one.
fn write_refusals(
    text: &mut String,
    names: &IndexSet<Name>,
    last: Time,
    commands: &[Waiting],
) -> Result<(), AllocError>
    ensures { OnOk result (string_bytes text.new
        ≡ string_bytes text.old ++ refusals_text names.now.keys last commands.now) }
{
    let refusal = Refusal::TimeSpent { last };
    for command in commands {
        let name = name_of(names, command.session);
        write_call_refused(text, name, command.call, &refusal)?;
    }
    Ok(())
}

// The replies of a round at a time.
fn write_replies(
    text: &mut String,
    names: &IndexSet<Name>,
    time: Time,
    replies: &[RoundReply],
) -> Result<(), AllocError>
    ensures { OnOk result (string_bytes text.new
        ≡ string_bytes text.old ++ replies_text names.now.keys time replies.now) }
{
    for replied in replies {
        let name = name_of(names, replied.session);
        write_replied(text, name, replied.call, time, &replied.reply)?;
    }
    Ok(())
}

/// Why no round is begun.
pub fn write_fault(
    text: &mut String,
    names: &IndexSet<Name>,
    fault: &BeginFault,
) -> Result<(), AllocError>
    ensures { OnOk result
        (string_bytes text.new ≡ string_bytes text.old ++ fault_text names.now.keys fault.now) }
{
    match fault {
        BeginFault::RoundOpen { round } => write_open(text, *round),
        BeginFault::NoTime {
            last,
            now,
            commands,
        } => {
            write_spent(text, *last, *now)?;
            write_refusals(text, names, *last, commands.as_slice())
        }
    }
}

/// A round that was applied, and what it replied to its commands.
pub fn write_round(
    text: &mut String,
    names: &IndexSet<Name>,
    done: &RoundDone,
) -> Result<(), AllocError>
    ensures { OnOk result
        (string_bytes text.new ≡ string_bytes text.old ++ round_text names.now.keys done.now) }
{
    write_done(text, done.round)?;
    write_replies(text, names, done.time, done.replies.as_slice())
}

/// Reads that have their rows.
pub fn write_reads(
    text: &mut String,
    names: &IndexSet<Name>,
    reads: &[FinishedRead],
) -> Result<(), AllocError>
    ensures { OnOk result
        (string_bytes text.new ≡ string_bytes text.old ++ reads_text names.now.keys reads.now) }
{
    for read in reads {
        let name = name_of(names, read.session);
        write_finished(text, name, read.call, read.time, &read.rows)?;
    }
    Ok(())
}
