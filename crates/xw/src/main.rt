//! A crossword construction engine on the command line.
#![tactic(auto)]

use std::process::ExitCode;
use xw_cli::start::start;
use xw_live::Live;

/// The engine that the program runs on.
type Engine = Live;

fn main(rt: HostRuntime) -> ExitCode {
    start::<Engine>(&rt).exit_code()
}
