//! `mpool script`: answers each line of its input by one line, over pools of mirrored devices.
#![tactic(auto)]

#[cfg(test)]
mod away;
mod clock;
mod devices;
mod stdio;
#[cfg(test)]
mod stops;
#[cfg(test)]
mod tests;

use host_front::Status;
use std::process::ExitCode;
use std::{env, io};

fn main(rt: HostRuntime) -> ExitCode {
    let status = serve(&rt);
    if status != Status::Done {
        // the exit status tells it too, where this can't be written
        let _ = eprintln!(rt; "mpool: {}", status.name());
    }
    ExitCode::from(status.code())
}

// Runs the words behind the program's name, over the host's devices.
fn serve(rt: &HostRuntime) -> Status {
    let words = match words(rt) {
        Ok(words) => words,
        Err(status) => return status,
    };
    let folder = devices::Folder::new(rt);
    let Ok(mut bank) = folder.bank(rt.alloc()) else {
        return Status::Memory;
    };
    let mut input = stdio::Input::new(rt.stdin());
    let mut output = stdio::Output::new(rt.stdout());
    let mut clock = clock::SystemClock::new(rt);
    host_front::run(
        rt.alloc(),
        &words,
        &mut bank,
        &mut input,
        &mut output,
        &mut clock,
    )
}

// The words behind the program's name. One that is no text is no command's.
fn words(rt: &HostRuntime) -> Result<Vec<String>, Status> {
    let args = env::args(rt).map_err(|fault| match fault.kind() {
        io::ErrorKind::InvalidData => Status::Usage,
        _ => Status::Memory,
    })?;
    let mut words = Vec::new(rt.alloc());
    for word in args.skip(1) {
        words.push(word).map_err(|_| Status::Memory)?;
    }
    Ok(words)
}
