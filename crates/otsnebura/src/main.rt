// The command `otsnebura`: the test bench for people.
#![tactic(auto)]

mod words; // what an argument is
mod options; // what stands after `run`, `replay` and `sheet`
mod answers; // the file that `--answers` names
mod help; // the page of help
mod replaying; // the end of `otsnebura replay`
mod run; // `otsnebura run` and `otsnebura replay`
mod scoring; // `otsnebura score`
mod pairs; // the captures and seen times that `score` names
mod commands; // the commands by their names

use cli_arguments::outcome::report;
use commands::command;
use std::process::ExitCode;

fn main(rt: HostRuntime) -> ExitCode {
    report(&rt, command(&rt))
}
