//! Reading a board file: a TOML text that says which modules, devices and shows a board has.
//!
//! A board is read whole, or the first wrong field is named by its path.
#![tactic(auto)]

mod board;
mod devices;
mod fields;
mod lists;
mod modules;
mod part;
mod read;
mod refusal;
mod shows;
mod text;

pub use board::{Action, Board, BoardDevice, BoardModule, BoardShare, BoardShow};
pub use lists::{BoardDevices, BoardModules, BoardShares, BoardShows, Script};
pub use read::read_board;
pub use refusal::BoardErr;
pub use text::{Path, PathText, Text};
