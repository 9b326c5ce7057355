//! Prints what images of a read-only storage hold, or where they are wrong.
#![tactic(auto)]

use crate::report::report_of;
use crate::request::{Argument, Kind, Outcome, Request, USAGE};
use std::fs::File;
use std::io::Read;
use std::process::ExitCode;
use std::{env, io};

mod listing;
mod report;
mod request;
mod table;
mod text;

/// The bytes of a file, read in one piece where its size is known beforehand.
fn read_image(rt: &HostRuntime, path: &str) -> io::Result<Vec<u8>> {
    let mut file = File::open(rt, path)?;
    let size = file.metadata()?.len() as usize;
    let mut image = vec![in rt.alloc(); 0u8; size]?;
    file.read_exact(image.as_mut_slice())?;
    file.read_to_end(&mut image)?;
    Ok(image)
}

/// Prints what one image holds, or that its file cannot be read. `gap` stands before what is printed.
fn inspect(rt: &HostRuntime, gap: &str, path: &str) -> io::Result<Outcome> {
    let image = match read_image(rt, path) {
        Ok(image) => image,
        Err(error) => {
            eprintln!(rt; "inspect: {path}: {error}")?;
            return Ok(Outcome::Unread);
        }
    };
    let report = report_of(rt.alloc(), image.as_slice())?;
    print!(rt; "{gap}{path}\n{report}")?;
    Ok(report.outcome())
}

/// Inspects every file among the arguments. The program fails if one of them does.
fn inspect_all(
    rt: &HostRuntime,
    arguments: &[Argument<'_>],
    is_strict: bool,
) -> io::Result<ExitCode> {
    let mut code = ExitCode::SUCCESS;
    let mut gap = "";
    for argument in arguments {
        if argument.kind == Kind::File {
            let outcome = inspect(rt, gap, argument.word)?;
            if outcome.is_failure(is_strict) {
                code = ExitCode::FAILURE;
            }
            if outcome != Outcome::Unread {
                gap = "\n";
            }
        }
    }
    Ok(code)
}

/// Says what is wrong with the arguments.
fn explain(rt: &HostRuntime, arguments: &[Argument<'_>]) -> io::Result<()> {
    for argument in arguments {
        if argument.kind == Kind::Unknown {
            eprintln!(rt; "inspect: unknown option {}", argument.word)?;
        }
    }
    rt.eprint(USAGE)
}

fn main(rt: HostRuntime) -> io::Result<ExitCode> {
    let words: Vec<String> = env::args(&rt)?.skip(1).collect(rt.alloc())?;
    let arguments: Vec<Argument> = words
        .iter()
        .map(|word| Argument::from(word.as_str()))
        .collect(rt.alloc())?;
    match Request::of(arguments.as_slice()) {
        Request::Usage => {
            rt.print(USAGE)?;
            Ok(ExitCode::SUCCESS)
        }
        Request::Correction => {
            explain(&rt, arguments.as_slice())?;
            Ok(ExitCode::FAILURE)
        }
        Request::Inspection { is_strict } => inspect_all(&rt, arguments.as_slice(), is_strict),
    }
}
