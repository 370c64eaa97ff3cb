//! Guarded memory, arguments in it and places of modules, tested against values worked by hand:
//! `region_guard`, `call_arguments` and `module_loader`, over `flat_ram`.
//!
//! The tests stand above these crates, which are proved once that way, and ask for public items alone.
#![tactic(auto)]

#[cfg(test)]
mod arguments;
#[cfg(test)]
mod guard;
#[cfg(test)]
mod places;
#[cfg(test)]
mod samples;
