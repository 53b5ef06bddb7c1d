// The tray runner, and the pairs of a tray.
#![tactic(auto)]

pub mod pairs;
mod run;

pub use run::run_tray;
