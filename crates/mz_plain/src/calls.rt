//! The calls of sessions.
ghost use Rattle.std.specs.Prelude.{◌≡◌, ◌<◌, ◌+◌, ◌-◌, ◌^◌, length, map};
ghost use Rattle.std.specs.List.{AllByRecursion as Each};
ghost use Rattle.mz_kept.specs.Steps.{session_at, with_call, with_replies, with_reply};
ghost use Rattle.mz_core.specs.Told.{IsNumberOf};

use mz_core::{FinishedRead, Waiting};
use mz_kept::Session;

/// The session of this number makes a call, which waits or has its reply: the number of the call. Takes no memory. O(1).
pub fn note_call(sessions: &mut Vec<Session>, session: u64, waits: bool) -> u64
    requires number { IsNumberOf (length sessions.old.items) session }
    requires few { (session_at sessions.old.items (session - 1)).calls < 2 ^ 32 }
    ensures call { result ≡ (session_at sessions.old.items (session - 1)).calls + 1 }
    ensures sessions { sessions.new.items ≡ with_call waits session sessions.old.items }
{
    let place = session as usize - 1;
    let call = sessions[place].calls + 1;
    sessions[place] = Session {
        calls: call,
        outstanding: if waits { Some(call) } else { None },
    };
    call
}

// The call of the session of this number has its reply.
fn note_reply(sessions: &mut Vec<Session>, session: u64)
    requires { IsNumberOf (length sessions.old.items) session }
    ensures { sessions.new.items ≡ with_reply sessions.old.items session }
{
    let place = session as usize - 1;
    sessions[place].outstanding = None;
}

/// The calls of these commands have their replies. Takes no memory. O(n), where there are n commands.
pub fn note_commands(sessions: &mut Vec<Session>, commands: &[Waiting])
    requires { Each (λ command. IsNumberOf (length sessions.old.items) command.session) commands.now }
    ensures { sessions.new.items
        ≡ with_replies sessions.old.items (map (λ command. command.session) commands.now) }
{
    'commands: for command in commands {
        note_reply(sessions, command.session);
    }
}

/// The calls of these reads have their replies. Takes no memory. O(n), where there are n reads.
pub fn note_reads(sessions: &mut Vec<Session>, reads: &[FinishedRead])
    requires { Each (λ read. IsNumberOf (length sessions.old.items) read.session) reads.now }
    ensures { sessions.new.items
        ≡ with_replies sessions.old.items (map (λ read. read.session) reads.now) }
{
    'reads: for read in reads {
        note_reply(sessions, read.session);
    }
}
