//! Scripts over views and indexes, with the transcripts that they should have.
use crate::runs::check_script;
use std::test::Fail;

/// Views over four tables and five, and queries over five: one beside a view, and one that names them all.
const FIVE_TABLES: &[u8] = b"\
a: CREATE VIEW two AS SELECT k FROM kv UNION ALL SELECT v FROM kv
b: CREATE VIEW four AS SELECT k FROM two UNION ALL SELECT k FROM two
c: CREATE VIEW five AS SELECT k FROM four UNION ALL SELECT k FROM kv
d: INSERT INTO kv VALUES (1, 10)
commit
a: SELECT * FROM four
b: SELECT k FROM four UNION ALL SELECT k FROM kv
c: SELECT k FROM kv UNION ALL SELECT k FROM kv UNION ALL SELECT k FROM kv UNION ALL SELECT k FROM kv UNION ALL SELECT k FROM kv
d: SELECT * FROM five
settle
";

/// What `FIVE_TABLES` is answered.
const FIVE_TABLES_ANSWERED: &[u8] = b"\
a#1 queued
b#1 queued
c#1 queued
d#1 queued
round 1 at 1: 4 commands
round 1 done
a#1 at 1: created
b#1 at 1: created
c#1 at 1: refused 7: has 5
d#1 at 1: inserted 1
a#2 reading at 1, peek 1
b#2 refused 7: has 5
c#2 refused 7: has 5
d#2 refused 2: five
a#2 at 1: 2 rows
  2 x (1)
  2 x (10)
";

#[test]
fn a_query_names_at_most_four_tables(rt: HostRuntime) -> Result<(), Fail> {
    check_script(&rt, rt.alloc(), FIVE_TABLES, FIVE_TABLES_ANSWERED)?;
    Ok(())
}

/// A view with sums past 32 bits, whose groups go one after another.
const GROUPS: &[u8] = b"\
s: CREATE VIEW totals AS SELECT k, COUNT(*) AS n, SUM(v) AS total FROM kv GROUP BY k
t: INSERT INTO kv VALUES (1, 2147483647), (1, 2147483647), (2, -2147483648), (2, -2147483648), (3, 7)
commit
s: SELECT * FROM totals
t: DELETE FROM kv WHERE k = 1
settle
s: SELECT * FROM totals
settle
t: DELETE FROM kv
commit
s: SELECT * FROM totals
settle
";

/// What `GROUPS` is answered.
const GROUPS_ANSWERED: &[u8] = b"\
s#1 queued
t#1 queued
round 1 at 1: 2 commands
round 1 done
s#1 at 1: created
t#1 at 1: inserted 5
s#2 reading at 1, peek 1
t#2 queued
round 2 at 2: 1 commands
round 2 done
t#2 at 2: deleted 2
s#2 at 1: 3 rows
  1 x (1, 2, 4294967294)
  1 x (2, 2, -4294967296)
  1 x (3, 1, 7)
s#3 reading at 2, peek 2
s#3 at 2: 2 rows
  1 x (2, 2, -4294967296)
  1 x (3, 1, 7)
t#3 queued
round 3 at 3: 1 commands
round 3 done
t#3 at 3: deleted 3
s#4 reading at 3, peek 3
s#4 at 3: 0 rows
";

#[test]
fn a_group_goes_with_its_last_row(rt: HostRuntime) -> Result<(), Fail> {
    check_script(&rt, rt.alloc(), GROUPS, GROUPS_ANSWERED)?;
    Ok(())
}

/// An index is dropped whose plan another one names, and the rows change behind it.
const DROPPED_INDEX: &[u8] = b"\
a: CREATE VIEW v AS SELECT k FROM kv WHERE v > 5
b: CREATE INDEX vi ON v
c: CREATE VIEW w AS SELECT k, COUNT(*) AS n FROM v GROUP BY k
d: CREATE INDEX wi ON w
commit
a: INSERT INTO kv VALUES (1, 10), (1, 9), (2, 3)
b: DROP INDEX vi
commit
c: SELECT * FROM w
d: SELECT * FROM v
settle
a: DELETE FROM kv WHERE v = 9
c: DROP VIEW v
commit
c: SELECT * FROM w
settle
";

/// What `DROPPED_INDEX` is answered.
const DROPPED_INDEX_ANSWERED: &[u8] = b"\
a#1 queued
b#1 queued
c#1 queued
d#1 queued
round 1 at 1: 4 commands
round 1 done
a#1 at 1: created
b#1 at 1: created
c#1 at 1: created
d#1 at 1: created
a#2 queued
b#2 queued
round 2 at 2: 2 commands
round 2 done
a#2 at 2: inserted 3
b#2 at 2: dropped
c#2 reading at 2, peek 1
d#2 reading at 2, peek 2
c#2 at 2: 1 rows
  1 x (1, 2)
d#2 at 2: 1 rows
  2 x (1)
a#3 queued
c#3 queued
round 3 at 3: 2 commands
round 3 done
a#3 at 3: deleted 1
c#3 at 3: refused 8: w
c#4 reading at 3, peek 3
c#4 at 3: 1 rows
  1 x (1, 1)
";

#[test]
fn the_plan_of_a_dropped_index_is_still_read(rt: HostRuntime) -> Result<(), Fail> {
    check_script(&rt, rt.alloc(), DROPPED_INDEX, DROPPED_INDEX_ANSWERED)?;
    Ok(())
}
