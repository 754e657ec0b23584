// The words that a program is started with: which file they name, or what else they ask for.
#![tactic(auto)]

mod command;
mod words;

pub use words::{Program, Request, parse};
