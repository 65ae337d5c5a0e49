//! The program `tetfit`: tetrahedral meshes of models as they are found.
#![tactic(auto)]

use run_steps::Status;
use std::process::ExitCode;
use tet_ports::start;
pub use tetfit_run::run_fit;

fn main(rt: HostRuntime) -> ExitCode {
    let no_memory = Status::NoMemory.code();
    start(rt, no_memory, |alloc, words, folder, out, err| {
        run_fit(alloc, words, folder, out, err).code()
    })
}
