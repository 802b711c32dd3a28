//! The archiver as a program: the words of the command line, the folder that it runs in, and the standard streams.
#![tactic(auto)]

use real_program::serve;
use std::process::ExitCode;

fn main(rt: HostRuntime) -> ExitCode {
    ExitCode::from(serve(&rt, &rt, rt.reader(), rt.stdout(), rt.stderr()))
}
