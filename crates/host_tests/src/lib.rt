//! The adapters to the host, tested: what no clause of `board_host` says.
//!
//! The hosts are readers, writers, files and arguments in memory, which end, fail or take nothing once
//! and then go on: no read and no write is tried twice. The tests ask for public items alone.
#![tactic(auto)]

#[cfg(test)]
mod drip;
#[cfg(test)]
mod files;
#[cfg(test)]
mod host;
#[cfg(test)]
mod out;
#[cfg(test)]
mod words;
