//! The program `tetgen`: tetrahedral meshes of sets of points and of complexes of segments and
//! facets.
#![tactic(auto)]

use run_steps::Status;
use std::process::ExitCode;
use tet_ports::start;
pub use tetgen_run::run_tetgen;

fn main(rt: HostRuntime) -> ExitCode {
    let no_memory = Status::NoMemory.code();
    start(rt, no_memory, |alloc, words, folder, out, err| {
        run_tetgen(alloc, words, folder, out, err).code()
    })
}
