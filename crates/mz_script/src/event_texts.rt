//! Writes the text of each event behind a text; names of sessions come as they are written. An `Err` leaves a front of it there.
ghost use Rattle.std.specs.Prelude.{◌≡◌, ◌++◌, OnOk, codes, string_bytes};
ghost use Rattle.mz_script.specs.EventTexts.{unreadable_text, unbuilt_text, refused_text, call_refused_text, queued_text, reading_text, begun_text, open_text, spent_text, done_text, told_text, replied_text, finished_text, line_of};
ghost use Rattle.mz_script.specs.Texts.{rows_words};

use crate::texts::{write_refusal, write_reply, write_rows};
use mz_bag::CountedRows;
use mz_log::SeqReply;
use mz_refusal::Refusal;
use mz_time::Time;
use std::alloc::AllocError;

/// A line that nothing can be made of, by its number.
pub fn write_unreadable(text: &mut String, line: u64) -> Result<(), AllocError>
    ensures { OnOk result (string_bytes text.new ≡ string_bytes text.old ++ unreadable_text line) }
{
    write!(text, "line {line} is unreadable\n")
}

/// A line that isn't built, by its number.
pub fn write_unbuilt(text: &mut String, line: u64) -> Result<(), AllocError>
    ensures { OnOk result (string_bytes text.new ≡ string_bytes text.old ++ unbuilt_text line) }
{
    write!(text, "line {line} is not built\n")
}

/// A session, or a submission of it, that is refused and is no call.
pub fn write_refused(text: &mut String, name: &str, refusal: &Refusal) -> Result<(), AllocError>
    ensures { OnOk result
        (string_bytes text.new ≡ string_bytes text.old ++ refused_text name.now refusal.now) }
{
    write!(text, "{name} ")?;
    write_refusal(text, refusal)?;
    text.push_str("\n")
}

/// A call that is refused.
pub fn write_call_refused(
    text: &mut String,
    name: &str,
    call: u64,
    refusal: &Refusal,
) -> Result<(), AllocError>
    ensures { OnOk result (string_bytes text.new
        ≡ string_bytes text.old ++ call_refused_text name.now call refusal.now) }
{
    write!(text, "{name}#{call} ")?;
    write_refusal(text, refusal)?;
    text.push_str("\n")
}

/// A command that waits for a round.
pub fn write_queued(text: &mut String, name: &str, call: u64) -> Result<(), AllocError>
    ensures { OnOk result
        (string_bytes text.new ≡ string_bytes text.old ++ queued_text name.now call) }
{
    write!(text, "{name}#{call} queued\n")
}

/// A read that waits for its rows.
pub fn write_reading(
    text: &mut String,
    name: &str,
    call: u64,
    time: Time,
    peek: u64,
) -> Result<(), AllocError>
    ensures { OnOk result
        (string_bytes text.new ≡ string_bytes text.old ++ reading_text name.now call time peek) }
{
    write!(text, "{name}#{call} reading at {time}, peek {peek}\n")
}

/// A round that was begun, with so many commands.
pub fn write_begun(
    text: &mut String,
    round: u64,
    time: Time,
    commands: u64,
) -> Result<(), AllocError>
    ensures { OnOk result
        (string_bytes text.new ≡ string_bytes text.old ++ begun_text round time commands) }
{
    write!(text, "round {round} at {time}: {commands} commands\n")
}

/// That a round is open already.
pub fn write_open(text: &mut String, round: u64) -> Result<(), AllocError>
    ensures { OnOk result (string_bytes text.new ≡ string_bytes text.old ++ open_text round) }
{
    write!(text, "round {round} is open\n")
}

/// That no time is left for a round: the last time, and what the clock says.
pub fn write_spent(text: &mut String, last: Time, now: u64) -> Result<(), AllocError>
    ensures { OnOk result (string_bytes text.new ≡ string_bytes text.old ++ spent_text last now) }
{
    write!(text, "time spent: last {last}, clock {now}\n")
}

/// A round that was applied.
pub fn write_done(text: &mut String, round: u64) -> Result<(), AllocError>
    ensures { OnOk result (string_bytes text.new ≡ string_bytes text.old ++ done_text round) }
{
    write!(text, "round {round} done\n")
}

/// That no round is open.
pub fn write_no_round(text: &mut String) -> Result<(), AllocError>
    ensures { OnOk result
        (string_bytes text.new ≡ string_bytes text.old ++ line_of (codes "no round")) }
{
    text.push_str("no round\n")
}

/// A command with the reply of a round.
pub fn write_replied(
    text: &mut String,
    name: &str,
    call: u64,
    time: Time,
    reply: &SeqReply,
) -> Result<(), AllocError>
    ensures { OnOk result (string_bytes text.new
        ≡ string_bytes text.old ++ replied_text name.now call time reply.now) }
{
    write!(text, "{name}#{call} at {time}: ")?;
    write_reply(text, reply)?;
    text.push_str("\n")
}

// How many different rows a read has.
fn write_found(
    text: &mut String,
    name: &str,
    call: u64,
    time: Time,
    rows: &CountedRows,
) -> Result<(), AllocError>
    ensures { OnOk result (string_bytes text.new
        ≡ string_bytes text.old ++ told_text name.now call time (rows_words rows.now)) }
{
    let count = rows.len();
    write!(text, "{name}#{call} at {time}: {count} rows\n")
}

/// A read that has its rows, a line each. Cost: the text.
pub fn write_finished(
    text: &mut String,
    name: &str,
    call: u64,
    time: Time,
    rows: &CountedRows,
) -> Result<(), AllocError>
    ensures { OnOk result (string_bytes text.new
        ≡ string_bytes text.old ++ finished_text name.now call time rows.now) }
{
    write_found(text, name, call, time, rows)?;
    write_rows(text, rows.as_slice())
}
