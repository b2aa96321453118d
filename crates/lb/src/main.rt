//! The program: it takes the words of the command line, makes the real source and sinks, and calls `top`.
#![tactic(auto)]

ghost use Rattle.std.specs.Prelude.{◌≡◌, ◌⊎◌, IfErr};

#[cfg(test)]
mod bytewise;
#[cfg(test)]
mod failing;
mod laws;
mod once;
mod reading;
mod run;
mod status;
mod top;
mod works;
mod writing;

use lb_io::{OpenGate, ReadSource, WriteSink};
use status::{Status, report};
use std::process::ExitCode;
use std::{env, io};
use top::top;

// The words after the program's name. Words that are not UTF-8 are no command. What the system hands
// over no clause of std says; so this one says of what fails alone.
fn words_of(rt: &HostRuntime) -> Result<Vec<String>, Status>
    ensures { IfErr result (λ status. (status ≡ Status.Usage) ⊎ (status ≡ Status.NoMemory)) }
{
    let mut words = Vec::new(rt.alloc());
    match env::args(rt) {
        Ok(args) => {
            for word in args.skip(1) {
                if words.push(word).is_err() {
                    return Err(Status::NoMemory);
                }
            }
            Ok(words)
        }
        Err(error) if error.kind() == io::ErrorKind::OutOfMemory => Err(Status::NoMemory),
        Err(_) => Err(Status::Usage),
    }
}

fn main(rt: HostRuntime) -> ExitCode {
    let mut src = ReadSource::new(rt.stdin());
    let mut out = WriteSink::new(rt.stdout());
    let mut err = WriteSink::new(rt.stderr());
    let alloc = rt.alloc();
    let status = match words_of(&rt) {
        Ok(words) => top(&rt, alloc, &words, &mut src, &mut out, &mut err, &OpenGate),
        Err(status) => report(alloc, status, &mut err),
    };
    ExitCode::from(status.number())
}
