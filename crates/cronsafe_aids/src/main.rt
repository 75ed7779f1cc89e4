//! Runs the operator's aids, the program `cronsafe-aids`, on its words, inputs and outputs.
#![tactic(auto)]

mod now;
mod program;
mod responding;
mod run;

use crate::program::run_program;
use cs_io::{Printer, hold_streams};
use std::io::IsTerminal;
use std::process::ExitCode;

fn main(rt: HostRuntime) -> ExitCode {
    // before anything else is opened
    let _held = hold_streams(&rt);
    let is_watched = rt.stderr().is_terminal();
    let mut out = Printer::new(rt.stdout());
    let mut err = Printer::new(rt.stderr());
    run_program(&rt, is_watched, &mut out, &mut err)
}
