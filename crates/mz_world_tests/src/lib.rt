//! The tests of whole scripts of all SQL, from the bytes to the transcript.
//! Promises nothing by code, and has none. The tests stand apart from the crates that they try, so that a gate proves those once.
//! Stands on `mz_plain` and `mz_world` for who carries scripts out, on `mz_shell` and `mz_io` for runs, and on `mz_value` for words.
#![tactic(auto)]

#[cfg(test)]
mod limits;
#[cfg(test)]
mod rounds;
#[cfg(test)]
mod runs;
#[cfg(test)]
mod tables;
#[cfg(test)]
mod views;
