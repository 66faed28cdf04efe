// The console of the link: reads commands, one to a line, from standard input or from the file that is its one
// argument, carries each out on the library, and answers on standard output.
#![tactic(auto)]

mod answer;
mod arguments;
mod bench;
mod command;
mod concentrator_bench;
mod concentrator_call;
mod failure;
mod frames;
#[cfg(test)]
mod lent_ends;
mod mistake;
mod reader_bench;
mod session;
mod site_account;
mod site_bench;
mod site_command;

use anyhow::anyhow;
use session::Session;
use std::alloc::AllocError;
use std::io::{BufRead, BufReader, ErrorKind, Write};
use std::process::ExitCode;
use std::{env, fs, io};

fn main(rt: HostRuntime) -> anyhow::Result<ExitCode> {
    let mut arguments = env::args(&rt)?;
    let _program = arguments.next();
    let script = arguments.next();
    if arguments.next().is_some() {
        return Err(anyhow!("usage: tapline [FILE]"));
    }
    let status = match script {
        Some(path) => converse(
            &rt,
            BufReader::new(rt.alloc(), fs::open(&rt, path.as_str())?)?,
        )?,
        None => converse(&rt, BufReader::new(rt.alloc(), rt.stdin())?)?,
    };
    Ok(status)
}

// Answers line by line, so that a person can talk to it. A line that was no command has its answer, and only the status
// tells of it.
fn converse<R: BufRead + Drop>(rt: &HostRuntime, mut input: R) -> io::Result<ExitCode> {
    let mut session = Session::new(rt.alloc())?;
    let mut out = rt.stdout();
    let mut line = Vec::new(rt.alloc());
    let mut status = ExitCode::SUCCESS;
    for number in 1..u64::MAX {
        line.clear();
        let understood = match input.read_until(b'\n', &mut line) {
            Ok(0) => break,
            Ok(_) => session.answer(number, without_end(line.as_slice())).is_ok(),
            // The line is longer than memory can hold, and is passed over.
            Err(error) if error.kind() == ErrorKind::OutOfMemory => {
                let _skipped = input.skip_until(b'\n')?;
                line = Vec::new(rt.alloc());
                session.fail(number, AllocError.into()).is_ok()
            }
            Err(error) => return Err(error),
        };
        if !understood {
            status = ExitCode::FAILURE;
        }
        out.write_all(session.text().as_bytes())?;
    }
    Ok(status)
}

// A line without the sign that ends it, which the last line may lack.
fn without_end(line: &[u8]) -> &[u8] {
    line.strip_suffix(b"\n").unwrap_or(line)
}
