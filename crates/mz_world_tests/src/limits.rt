//! Scripts that come to a limit, written by loops, with the transcripts that they should have.
use crate::runs::check_script;
use std::alloc::{AllocError, Global};
use std::process::Abort;
use std::test::Fail;

/// Each of these rounds inserts 8,192 rows into the table `kv`.
const ROUNDS: u64 = 8;

/// What comes behind a full table: a row too many, all rows go, and one comes.
const BEHIND_FULL: &str = "\
s: INSERT INTO kv VALUES (1, 2)
t: DELETE FROM kv
commit
s: INSERT INTO kv VALUES (1, 2)
commit
s: SELECT * FROM kv
settle
";

/// What `BEHIND_FULL` is answered.
const BEHIND_FULL_ANSWERED: &str = "\
s#9 queued
t#1 queued
round 9 at 9: 2 commands
round 9 done
s#9 at 9: refused 9: has 65536, adds 1
t#1 at 9: deleted 65536
s#10 queued
round 10 at 10: 1 commands
round 10 done
s#10 at 10: inserted 1
s#11 reading at 10, peek 1
s#11 at 10: 1 rows
  1 x (1, 2)
";

/// Writes an insert of one row, 8,192 times.
fn write_insert(script: &mut String) -> Result<(), AllocError> {
    script.push_str("s: INSERT INTO kv VALUES (0,0)")?;
    for _ in 1..8_192 {
        script.push_str(",(0,0)")?;
    }
    script.push_str("\ncommit\n")
}

/// Writes what the insert of this round is answered.
fn write_inserted(transcript: &mut String, round: u64) -> Result<(), AllocError> {
    write!(
        transcript,
        "s#{round} queued\nround {round} at {round}: 1 commands\n"
    )?;
    write!(
        transcript,
        "round {round} done\ns#{round} at {round}: inserted 8192\n"
    )
}

/// A script that fills the table `kv`, and what comes then.
fn full_table(alloc: Global) -> Result<String, AllocError> {
    let mut script = String::new(alloc);
    for _ in 0..ROUNDS {
        write_insert(&mut script)?;
    }
    script.push_str(BEHIND_FULL)?;
    Ok(script)
}

/// What `full_table` is answered.
fn full_table_answered(alloc: Global) -> Result<String, AllocError> {
    let mut transcript = String::new(alloc);
    for round in 1..=ROUNDS {
        write_inserted(&mut transcript, round)?;
    }
    transcript.push_str(BEHIND_FULL_ANSWERED)?;
    Ok(transcript)
}

/// Fills the table `kv` and empties it.
fn check_full_table(rt: &impl Abort, alloc: Global) -> Result<(), AllocError> {
    let script = full_table(alloc)?;
    let transcript = full_table_answered(alloc)?;
    check_script(rt, alloc, script.as_bytes(), transcript.as_bytes())
}

#[test]
fn a_table_has_at_most_65536_rows(rt: HostRuntime) -> Result<(), Fail> {
    check_full_table(&rt, rt.alloc())?;
    Ok(())
}

/// A script that opens 64 sessions; then one more is refused, and the first one speaks again.
fn many_sessions(alloc: Global) -> Result<String, AllocError> {
    let mut script = String::new(alloc);
    for session in 1..=65 {
        write!(script, "s{session}: SELECT\n")?;
    }
    script.push_str("s1: SELECT\n")?;
    Ok(script)
}

/// What `many_sessions` is answered.
fn many_sessions_answered(alloc: Global) -> Result<String, AllocError> {
    let mut transcript = String::new(alloc);
    for session in 1..=64 {
        write!(transcript, "s{session}#1 refused 1: at 6\n")?;
    }
    transcript.push_str("s65 refused 17: sessions 64\ns1#2 refused 1: at 6\n")?;
    Ok(transcript)
}

/// Opens one session more than there may be.
fn check_many_sessions(rt: &impl Abort, alloc: Global) -> Result<(), AllocError> {
    let script = many_sessions(alloc)?;
    let transcript = many_sessions_answered(alloc)?;
    check_script(rt, alloc, script.as_bytes(), transcript.as_bytes())
}

#[test]
fn at_most_64_sessions_are_opened(rt: HostRuntime) -> Result<(), Fail> {
    check_many_sessions(&rt, rt.alloc())?;
    Ok(())
}
