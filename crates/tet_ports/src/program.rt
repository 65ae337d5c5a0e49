//! How a program of this repository begins: with its words, the folder of the system and its
//! streams.

use crate::{Name, NoMemory, OsFolder, StdSink, Words};
use std::alloc::Global;
use std::process::ExitCode;
use std::{env, io};

/// The stream of the lines.
pub type Out = StdSink<io::Stdout>;

/// The stream of the messages.
pub type Err = StdSink<io::Stderr>;

/// Runs a program on the words that the system hands it, over the working folder and the standard
/// streams for its lines and for its messages; `run` answers its status, and `no_memory` is the one
/// where there is no memory for the words.
pub fn start<F>(rt: HostRuntime, no_memory: u8, run: F) -> ExitCode
where
    F: FnOnce(Global, &Words, &mut OsFolder<HostRuntime>, &mut Out, &mut Err) -> u8,
    requires { F.IsAlwaysCallable run }
{
    let Ok(words) = words_of(&rt) else {
        return ExitCode::from(no_memory);
    };
    let mut out = StdSink::new(rt.stdout());
    let mut err = StdSink::new(rt.stderr());
    let alloc = rt.alloc();
    let mut folder = OsFolder::new(rt);
    ExitCode::from(run(alloc, &words, &mut folder, &mut out, &mut err))
}

/// The arguments after the program's own name; one empty word, which no program understands, where
/// they can't be read as text. It refuses when out of memory.
fn words_of(rt: &HostRuntime) -> Result<Words, NoMemory> {
    match env::args(rt) {
        Ok(args) => {
            let mut words = Words::new(rt.alloc());
            for arg in args.skip(1) {
                words.push(Name::from_slice(rt.alloc(), arg.as_bytes())?)?;
            }
            Ok(words)
        }
        Err(error) if error.kind() == io::ErrorKind::OutOfMemory => Err(NoMemory),
        Err(_) => unreadable(rt.alloc()),
    }
}

/// One empty word.
fn unreadable(alloc: Global) -> Result<Words, NoMemory> {
    let mut words = Words::new(alloc);
    words.push(Name::new(alloc))?;
    Ok(words)
}
