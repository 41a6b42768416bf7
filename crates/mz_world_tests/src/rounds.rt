//! Scripts about rounds and the clock, with the transcripts that they should have.
use crate::runs::check_script;
use std::test::Fail;

/// A read and a command while a round is open, and lines that come too early or too late.
const OPEN_ROUND: &[u8] = b"\
s: INSERT INTO kv VALUES (1, 10)
begin
r: SELECT * FROM kv
t: DELETE FROM kv
begin
commit
finish
finish
s: SELECT * FROM kv
settle
";

/// What `OPEN_ROUND` is answered.
const OPEN_ROUND_ANSWERED: &[u8] = b"\
s#1 queued
round 1 at 1: 1 commands
r#1 reading at 0, peek 1
t#1 queued
round 1 is open
round 1 is open
round 1 done
s#1 at 1: inserted 1
no round
s#2 reading at 1, peek 2
round 2 at 2: 1 commands
round 2 done
t#1 at 2: deleted 1
r#1 at 0: 0 rows
s#2 at 1: 1 rows
  1 x (1, 10)
";

#[test]
fn what_comes_in_an_open_round_waits(rt: HostRuntime) -> Result<(), Fail> {
    check_script(&rt, rt.alloc(), OPEN_ROUND, OPEN_ROUND_ANSWERED)?;
    Ok(())
}

/// A clock that is set ahead, back, to the last time and ahead again.
const CLOCK: &[u8] = b"\
tick 100
s: INSERT INTO kv VALUES (1, 10)
commit
tick 50
s: INSERT INTO kv VALUES (2, 20)
commit
tick 101
commit
tick 200
s: DELETE FROM kv WHERE k < 2
commit
s: SELECT * FROM kv
settle
";

/// What `CLOCK` is answered.
const CLOCK_ANSWERED: &[u8] = b"\
s#1 queued
round 1 at 100: 1 commands
round 1 done
s#1 at 100: inserted 1
s#2 queued
round 2 at 101: 1 commands
round 2 done
s#2 at 101: inserted 1
round 3 at 102: 0 commands
round 3 done
s#3 queued
round 4 at 200: 1 commands
round 4 done
s#3 at 200: deleted 1
s#4 reading at 200, peek 1
s#4 at 200: 1 rows
  1 x (2, 20)
";

#[test]
fn no_time_is_given_twice(rt: HostRuntime) -> Result<(), Fail> {
    check_script(&rt, rt.alloc(), CLOCK, CLOCK_ANSWERED)?;
    Ok(())
}

/// The last time is given, and two rounds more are begun: one for two commands, one for none.
const LAST_TIME: &[u8] = b"\
s: INSERT INTO kv VALUES (1, 10)
tick 9223372036854775806
commit
s: INSERT INTO kv VALUES (2, 20)
t: DELETE FROM kv
commit
s: SELECT * FROM kv
commit
settle
";

/// What `LAST_TIME` is answered.
const LAST_TIME_ANSWERED: &[u8] = b"\
s#1 queued
round 1 at 9223372036854775806: 1 commands
round 1 done
s#1 at 9223372036854775806: inserted 1
s#2 queued
t#1 queued
time spent: last 9223372036854775806, clock 9223372036854775806
s#2 refused 18: last 9223372036854775806
t#1 refused 18: last 9223372036854775806
s#3 reading at 9223372036854775806, peek 1
time spent: last 9223372036854775806, clock 9223372036854775806
s#3 at 9223372036854775806: 1 rows
  1 x (1, 10)
";

#[test]
fn the_last_time_is_spent_once(rt: HostRuntime) -> Result<(), Fail> {
    check_script(&rt, rt.alloc(), LAST_TIME, LAST_TIME_ANSWERED)?;
    Ok(())
}

#[test]
fn a_script_that_does_nothing_is_answered_nothing(rt: HostRuntime) -> Result<(), Fail> {
    check_script(&rt, rt.alloc(), b"", b"")?;
    check_script(&rt, rt.alloc(), b"tick 5", b"")?;
    Ok(())
}
