//! The tests of scripts, from the bytes to the transcript.
//! Promises nothing by code, and has none. The tests stand apart from the crates that they try, so that a gate proves those once.
//! Stands on `mz_shell`, on `mz_script` for lines, and on `mz_io` and `mz_value`.
#![tactic(auto)]

#[cfg(test)]
mod counter;
#[cfg(test)]
mod scripts;
