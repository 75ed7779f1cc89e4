//! The program `cronsafe`, over its words, its inputs and two outputs, and over the machine.
#![tactic(auto)]

mod program;
mod responding;
mod run;

use crate::program::run_program;
use cs_io::{Printer, hold_streams};
use cs_machine::{Home, Remarks, RunnerSetup, ShellRunner};
use cs_serve::Streams;
use std::alloc::Global;
use std::fs::File;
use std::process::{ExitCode, Processes};
use std::rt::{Clock, Files};
use std::sync::Wait;

/// What runners are made with, whatever their settings: the machine, and where they report.
#[derive(Drop)]
struct Ground<'x, R> {
    rt: &'x R,
    alloc: Global,
    streams: Streams<'x>,
}

impl<'x, R: Processes + Files<File = File> + Clock + Wait> Ground<'x, R> {
    fn runner(&self, setup: RunnerSetup) -> ShellRunner<'x, R> {
        let home = if setup.has_home {
            Home::of_process(self.rt, self.alloc)
        } else {
            None
        };
        ShellRunner::new(
            self.rt,
            self.alloc,
            self.streams.out,
            self.streams.err,
            self.streams.remarks,
            home,
            setup.tells_signals,
            setup.output,
            setup.offset,
        )
    }
}

fn main(rt: HostRuntime) -> ExitCode {
    // before anything else is opened
    let _held = hold_streams(&rt);
    let mut out = Printer::new(rt.stdout());
    let mut err = Printer::new(rt.stderr());
    let alloc = rt.alloc();
    let remarks = Remarks::new(alloc);
    let streams = Streams {
        out: rt.stdout(),
        err: rt.stderr(),
        remarks: &remarks,
    };
    let ground = Ground {
        rt: &rt,
        alloc,
        streams,
    };
    run_program(
        &rt,
        streams,
        &mut out,
        &mut err,
        |setup| ground.runner(setup),
    )
}
