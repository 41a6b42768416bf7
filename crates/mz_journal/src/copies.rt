//! Copies of calls and of their replies.
ghost use Rattle.std.specs.Prelude.{◌≡◌, IfOk};

use mz_log::{CallEntry, FrontierRow, FrontierRows, Reply, SeqReply};
use std::alloc::{AllocError, Global};

// A copy of what a round replied. Only a refusal takes memory.
fn copied_seq_reply(alloc: Global, reply: &SeqReply) -> Result<SeqReply, AllocError>
    ensures { IfOk result (λ copy. copy ≡ reply.now) }
{
    Ok(match reply {
        SeqReply::Created(id) => SeqReply::Created(*id),
        SeqReply::Dropped => SeqReply::Dropped,
        SeqReply::Inserted(count) => SeqReply::Inserted(*count),
        SeqReply::Deleted(count) => SeqReply::Deleted(*count),
        SeqReply::Refused(refusal) => SeqReply::Refused(refusal.try_copy(alloc)?),
    })
}

// A copy of how far a collection is readable.
fn copied_row(alloc: Global, row: &FrontierRow) -> Result<FrontierRow, AllocError>
    ensures { IfOk result (λ copy. copy ≡ row.now) }
{
    Ok(FrontierRow {
        id: row.id,
        name: row.name.try_copy(alloc)?,
        since: row.since,
        upper: row.upper,
        holds: row.holds,
    })
}

// A copy of how far collections are readable, in order.
fn copied_rows(alloc: Global, rows: &[FrontierRow]) -> Result<FrontierRows, AllocError>
    ensures { IfOk result (λ copy. copy ≡ rows.now) }
{
    let mut copy = Vec::with_capacity(alloc, rows.len())?;
    'rows: for row in rows {
        copy.push(copied_row(alloc, row)?)?;
    }
    Ok(FrontierRows::from_vec(copy))
}

// A copy of a reply.
fn copied_reply(alloc: Global, reply: &Reply) -> Result<Reply, AllocError>
    ensures { IfOk result (λ copy. copy ≡ reply.now) }
{
    Ok(match reply {
        Reply::Command(reply) => Reply::Command(copied_seq_reply(alloc, reply)?),
        Reply::Rows(time, rows) => Reply::Rows(*time, rows.try_copy(alloc)?),
        Reply::Instant(time) => Reply::Instant(*time),
        Reply::Frontiers(time, rows) => {
            Reply::Frontiers(*time, copied_rows(alloc, rows.as_slice())?)
        },
        Reply::Refused(refusal) => Reply::Refused(refusal.try_copy(alloc)?),
        Reply::Cancelled(time) => Reply::Cancelled(*time),
    })
}

// A copy of a reply, where there is one.
fn copied_if_any(alloc: Global, reply: &Option<Reply>) -> Result<Option<Reply>, AllocError>
    ensures { IfOk result (λ copy. copy ≡ reply.now) }
{
    Ok(match reply {
        Some(reply) => Some(copied_reply(alloc, reply)?),
        None => None,
    })
}

// A copy of a call with its reply.
fn copied_call(alloc: Global, call: &CallEntry) -> Result<CallEntry, AllocError>
    ensures { IfOk result (λ copy. copy ≡ call.now) }
{
    Ok(CallEntry {
        session: call.session,
        call: call.call,
        time: call.time,
        text: call.text.try_copy(alloc)?,
        reply: copied_if_any(alloc, &call.reply)?,
    })
}

/// A copy of the calls with their replies, in order.
pub fn copied_calls(alloc: Global, calls: &[CallEntry]) -> Result<Vec<CallEntry>, AllocError>
    ensures { IfOk result (λ copy. copy.items ≡ calls.now) }
{
    let mut copy = Vec::with_capacity(alloc, calls.len())?;
    'calls: for call in calls {
        copy.push(copied_call(alloc, call)?)?;
    }
    Ok(copy)
}
