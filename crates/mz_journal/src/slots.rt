//! Where the call that waits stands.
ghost use Rattle.std.specs.Prelude.{◌≡◌, ◌%◌, ◌<◌, true, length, vec_len, vec_capacity};
ghost use Rattle.mz_journal.specs.Journal.{is_waiting as waits_under, has_waiting, with_reply};
ghost use Rattle.mz_journal.specs.Slots.{most_slots, IsLast, replied_at};

use mz_log::{CallEntry, Reply};
use mz_time::Time;

/// How many slots there are. Sessions whose numbers differ by less have slots of their own.
pub const SLOTS: usize = 64;

/// The slot of a session.
pub fn slot_of(session: u64) -> usize
    ensures slot { result ≡ session % most_slots }
    ensures within { result < most_slots }
{
    (session % SLOTS as u64) as usize
}

/// Whether the call has this number in this session, and no reply.
pub fn is_waiting(entry: &CallEntry, session: u64, call: u64) -> bool
    ensures { result ≡ waits_under session call entry.now }
{
    entry.session == session && entry.call == call && entry.reply.is_none()
}

/// The place of the last call that waits under this number of this session. O(n), where n calls stand behind it.
pub fn last_waiting(calls: &[CallEntry], session: u64, call: u64) -> usize
    requires { has_waiting session call calls.now ≡ true }
    ensures { IsLast (waits_under session call) calls.now result }
{
    let mut place = calls.len();
    'back: while place > 0 {
        place -= 1;
        if is_waiting(&calls[place], session, call) {
            return place;
        }
    }
    unreachable!()
}

// Gives the call its reply and its time.
fn give_reply(entry: &mut CallEntry, time: Time, reply: Reply)
    ensures { entry.new ≡ with_reply time reply entry.old }
{
    entry.time = time;
    entry.reply = Some(reply);
}

/// Gives the call at this place its reply and its time. O(1).
#[tactic(auto, using(crate::proofs::ReplyLemmas::set_replied))]
pub fn answer_at(calls: &mut Vec<CallEntry>, place: usize, time: Time, reply: Reply)
    requires { place < vec_len calls.old }
    ensures calls { calls.new.items ≡ replied_at place time reply calls.old.items }
    ensures len { vec_len calls.new ≡ vec_len calls.old }
    ensures capacity { vec_capacity calls.new ≡ vec_capacity calls.old }
{
    give_reply(&mut calls[place], time, reply);
}
