//! The commands that follow a deck: keywords, each with its numbers.
//!
//! [`read_command`] reads one line. A contract sees a [`Command`] as the value that it is; all names in it are card
//! numbers, and no range is judged here. Cite
//! `Rattle.transyt_commands.specs.Commands.{command_in}` first: the command of a line, or the first of the codes
//! 11, 10, 12 and 13 that holds of it. The codes that depend on the network or on an open trial (17, 23, 14,
//! 24, 25, 26, 18, 19) are judged by whoever carries the command out. No call takes memory.
//!
//! Commands, their numbers and all codes are this project's own.
#![tactic(auto)]

mod command;
mod laws;
mod reading;

pub use command::{Command, Request};
pub use laws::worked_lines;
pub use reading::{is_command, read_command};
