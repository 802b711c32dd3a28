//! Does the cases of whole commands that stand in files: `xarch_run::run` has to answer, write and say what they want.
#![tactic(auto)]

use given_commands::{Given, Report, Runs, check, read_given};
use std::alloc::Global;
use std::process::ExitCode;
use std::{env, fs, io};
use xa_outside::{MemFolder, MemSink, MemSource};
use xarch_run::run;

/// The program that is tried.
#[derive(Drop)]
struct Archiver;

impl Runs for Archiver {
    fn run(
        &mut self,
        alloc: Global,
        words: &[String],
        folder: &mut MemFolder,
        input: &mut MemSource,
        out: &mut MemSink,
        err: &mut MemSink,
    ) -> u8 {
        run(alloc, words, folder, input, out, err)
    }
}

/// Whether all cases agreed so far.
#[derive(Clone, Copy, PartialEq, Eq)]
enum Agreement {
    Whole,
    Broken,
}

fn print_report(rt: &impl Print, name: &str, report: &Report) -> io::Result<Agreement> {
    for line in report.differing.iter() {
        println!(rt; "{line}")?;
    }
    if !report.differing.is_empty() {
        return Ok(Agreement::Broken);
    }
    let count = report.agreed;
    println!(rt; "{name}: {count} cases agree")?;
    Ok(Agreement::Whole)
}

fn check_file(rt: &HostRuntime, given: &Given, name: &str) -> io::Result<Agreement> {
    let text = fs::read_to_string(rt, name)?;
    let report = check(rt.alloc(), &mut Archiver, given, name, &text)?;
    print_report(rt, name, &report)
}

/// The bytes that all files speak of by their names.
fn given_in(rt: &HostRuntime, name: &str) -> io::Result<Given> {
    let text = fs::read_to_string(rt, name)?;
    match read_given(rt.alloc(), &text) {
        Ok(given) => Ok(given),
        Err(line) => {
            println!(rt; "{name}:{line}: the line names no bytes")?;
            Err(io::Error::from(io::ErrorKind::InvalidData))
        }
    }
}

/// Reads the names from the first file, and does the cases of the others.
fn check_all(rt: &HostRuntime) -> io::Result<Agreement> {
    let mut words = env::args(rt)?.skip(1);
    let Some(names) = words.next() else {
        return Ok(Agreement::Broken);
    };
    let given = given_in(rt, &names)?;
    let mut agreement = Agreement::Whole;
    for word in words {
        if check_file(rt, &given, &word)? == Agreement::Broken {
            agreement = Agreement::Broken;
        }
    }
    Ok(agreement)
}

fn main(rt: HostRuntime) -> ExitCode {
    match check_all(&rt) {
        Ok(Agreement::Whole) => ExitCode::SUCCESS,
        _ => ExitCode::FAILURE,
    }
}
