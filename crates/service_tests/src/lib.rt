//! Services, played on boards of two modules: what no clause of the crates of the kernel says.
//!
//! The tests stand above these crates, which are proved once that way, and ask for public items alone.
//! A test is a list of tables of steps, which `play` takes on a new board.
#![tactic(auto)]

#[cfg(test)]
mod board;
#[cfg(test)]
mod calls;
#[cfg(test)]
mod create;
#[cfg(test)]
mod kernel;
#[cfg(test)]
mod modules;
#[cfg(test)]
mod names;
#[cfg(test)]
mod numbers;
#[cfg(test)]
mod objects;
#[cfg(test)]
mod pair;
#[cfg(test)]
mod sleeps;
#[cfg(test)]
mod states;
#[cfg(test)]
mod steps;
