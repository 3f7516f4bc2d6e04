// The lister: a query line and a bundle file on standard input, the list on standard output.
#![tactic(auto)]

use listing::list::reply_to;
use reply::input::MOST_INPUT;
use std::alloc::AllocError;
use std::io;
use std::io::{Read, Write};
use std::process::ExitCode;

/// Why the program ends with status 1.
#[derive(Drop)]
enum Failure {
    Refused,
    Memory,
    Io(io::Error),
}

impl From<io::Error> for Failure {
    fn from(error: io::Error) -> Failure {
        Failure::Io(error)
    }
}

impl From<AllocError> for Failure {
    fn from(_error: AllocError) -> Failure {
        Failure::Memory
    }
}

// All of standard input, but no more than one byte past the limit.
fn read_input(rt: &HostRuntime) -> io::Result<Vec<u8>> {
    let mut input = Vec::new(rt.alloc());
    rt.stdin()
        .take(MOST_INPUT as u64 + 1)
        .read_to_end(&mut input)?;
    Ok(input)
}

fn run(rt: &HostRuntime) -> Result<(), Failure> {
    let input = read_input(rt)?;
    let reply = reply_to(rt.alloc(), &input)?;
    rt.stdout().write_all(&reply.text)?;
    if reply.refused {
        return Err(Failure::Refused);
    }
    Ok(())
}

// Says on standard error why there is no list, where the answer does not.
fn report(rt: &HostRuntime, failure: &Failure) -> io::Result<()> {
    match failure {
        Failure::Refused => Ok(()),
        Failure::Memory => eprintln!(rt; "lister: no memory"),
        Failure::Io(error) => eprintln!(rt; "lister: {error}"),
    }
}

fn main(rt: HostRuntime) -> ExitCode {
    let Err(failure) = run(&rt) else {
        return ExitCode::SUCCESS;
    };
    // where even this cannot be written, the status says it
    let _ = report(&rt, &failure);
    ExitCode::FAILURE
}
