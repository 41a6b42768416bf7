//! Scripts over the table `kv` alone, with the transcripts that they should have.
use crate::runs::check_script;
use std::test::Fail;

/// Two inserts of a round, the second with the lesser row, and a read.
const TWO_INSERTS: &[u8] = b"\
s1: INSERT INTO kv VALUES (2, 20)
s2: INSERT INTO kv VALUES (1, 10)
commit
s1: SELECT * FROM kv
settle
";

/// What `TWO_INSERTS` is answered.
const TWO_INSERTS_ANSWERED: &[u8] = b"\
s1#1 queued
s2#1 queued
round 1 at 1: 2 commands
round 1 done
s1#1 at 1: inserted 1
s2#1 at 1: inserted 1
s1#2 reading at 1, peek 1
s1#2 at 1: 2 rows
  1 x (1, 10)
  1 x (2, 20)
";

#[test]
fn rows_are_shown_in_order(rt: HostRuntime) -> Result<(), Fail> {
    check_script(&rt, rt.alloc(), TWO_INSERTS, TWO_INSERTS_ANSWERED)?;
    Ok(())
}

/// A row that one insert names twice and another once.
const ROW_TWICE: &[u8] = b"\
s: INSERT INTO kv VALUES (1, 10), (1, 10)
commit
s: INSERT INTO kv VALUES (1, 10)
commit
s: SELECT * FROM kv
settle
";

/// What `ROW_TWICE` is answered.
const ROW_TWICE_ANSWERED: &[u8] = b"\
s#1 queued
round 1 at 1: 1 commands
round 1 done
s#1 at 1: inserted 2
s#2 queued
round 2 at 2: 1 commands
round 2 done
s#2 at 2: inserted 1
s#3 reading at 2, peek 1
s#3 at 2: 1 rows
  3 x (1, 10)
";

#[test]
fn a_row_is_there_as_often_as_it_was_inserted(rt: HostRuntime) -> Result<(), Fail> {
    check_script(&rt, rt.alloc(), ROW_TWICE, ROW_TWICE_ANSWERED)?;
    Ok(())
}

/// A read before any round.
const EMPTY_TABLE: &[u8] = b"\
s: SELECT * FROM kv
settle
";

/// What `EMPTY_TABLE` is answered.
const EMPTY_TABLE_ANSWERED: &[u8] = b"\
s#1 reading at 0, peek 1
s#1 at 0: 0 rows
";

#[test]
fn a_read_before_any_round_is_at_0(rt: HostRuntime) -> Result<(), Fail> {
    check_script(&rt, rt.alloc(), EMPTY_TABLE, EMPTY_TABLE_ANSWERED)?;
    Ok(())
}

/// Sessions that speak before they have a reply: with a command that waits, and with a read.
const BUSY: &[u8] = b"\
s: INSERT INTO kv VALUES (1, 10)
s: SELECT * FROM kv
t: SELECT k FROM kv
t: nonsense
settle
s: SELECT v FROM kv
s: DELETE FROM kv
settle
t: nonsense
";

/// What `BUSY` is answered.
const BUSY_ANSWERED: &[u8] = b"\
s#1 queued
s refused 10: call 1
t#1 reading at 0, peek 1
t refused 10: call 1
round 1 at 1: 1 commands
round 1 done
s#1 at 1: inserted 1
t#1 at 0: 0 rows
s#2 reading at 1, peek 2
s refused 10: call 2
s#2 at 1: 1 rows
  1 x (10)
t#2 refused 1: at 0
";

#[test]
fn a_busy_session_is_refused(rt: HostRuntime) -> Result<(), Fail> {
    check_script(&rt, rt.alloc(), BUSY, BUSY_ANSWERED)?;
    Ok(())
}

/// An insert, a delete and an insert in one round.
const ONE_ROUND: &[u8] = b"\
a: INSERT INTO kv VALUES (1, 10), (1, 10), (2, 20)
b: DELETE FROM kv WHERE k = 1
c: INSERT INTO kv VALUES (1, 10)
commit
a: SELECT * FROM kv
settle
";

/// What `ONE_ROUND` is answered.
const ONE_ROUND_ANSWERED: &[u8] = b"\
a#1 queued
b#1 queued
c#1 queued
round 1 at 1: 3 commands
round 1 done
a#1 at 1: inserted 3
b#1 at 1: deleted 2
c#1 at 1: inserted 1
a#2 reading at 1, peek 1
a#2 at 1: 2 rows
  1 x (1, 10)
  1 x (2, 20)
";

#[test]
fn commands_of_a_round_are_carried_out_in_order(rt: HostRuntime) -> Result<(), Fail> {
    check_script(&rt, rt.alloc(), ONE_ROUND, ONE_ROUND_ANSWERED)?;
    Ok(())
}
