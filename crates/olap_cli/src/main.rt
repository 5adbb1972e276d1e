//! The program: the words after its name, the real files, standard output, and the exit status.
//!
//! It hands all words to `olap_run`, and knows no command.
#![tactic(auto)]

ghost use Rattle.std.specs.Prelude.{◌≡◌, ◌≢◌};
ghost use Rattle.olap_cli.specs.Statuses.{exit_status, out_of_memory};

use olap_base::Memory;
use olap_files::{FileLibrary, StdoutSink};
use olap_run::{Status, olap};
use std::alloc::Global;
use std::env;
use std::io::ErrorKind;
use std::process::ExitCode;

/// The exit status of a run that is out of memory.
const OUT_OF_MEMORY: u8 = 6;

/// The exit status.
fn code(status: Status) -> u8
    ensures { result ≡ exit_status status }
{
    match status {
        Status::Yes => 0,
        Status::No => 1,
        Status::Usage => 2,
        Status::Refused => 3,
        Status::ReadFault => 4,
        Status::WriteFault => 5,
        Status::Memory(_) => OUT_OF_MEMORY,
    }
}

/// The exit status if the words can't be had. Words that aren't UTF-8 are no command: they end as wrong words do, with
/// nothing printed.
fn without_words(why: ErrorKind) -> u8
    ensures memory { why ≡ ErrorKind.OutOfMemory → result ≡ out_of_memory }
    ensures usage { why ≢ ErrorKind.OutOfMemory → result ≡ exit_status Status.Usage }
{
    match why {
        ErrorKind::OutOfMemory => OUT_OF_MEMORY,
        _ => code(Status::Usage),
    }
}

fn main(rt: HostRuntime) -> ExitCode {
    let args = match env::args(&rt) {
        Ok(args) => args,
        Err(why) => return ExitCode::from(without_words(why.kind())),
    };
    let alloc: Global = rt.alloc();
    let mut words = Vec::new(alloc);
    for word in args.skip(1) {
        if let Err(refused) = words.push(word) {
            return ExitCode::from(code(Status::Memory(Memory::from(refused))));
        }
    }
    let mut library = FileLibrary::new(&rt);
    let mut output = StdoutSink::new(&rt);
    ExitCode::from(code(olap(alloc, &words, &mut library, &mut output)))
}
