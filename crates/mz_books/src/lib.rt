//! What a log determines: sessions and their calls, rounds and states, collections, holds and peeks, sinces, streams and feeds.
//! Promises nothing by code: its definitions (`specs/`) say what a submission is answered, which entry may follow, and what is good.
//! Stands on `mz_log` for the entries and the sequential object, and on `mz_rules` for sinces; the laws of logs stand on it.
#![tactic(auto)]
