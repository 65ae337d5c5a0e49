//! The program `tetwhere`: which tetrahedron of a mesh holds each point of a list.
#![tactic(auto)]

use std::process::ExitCode;
use tet_ports::{NoMemory, start};
use tetwhere_run::{WhereStatus, run_where};

fn main(rt: HostRuntime) -> ExitCode {
    let no_memory = WhereStatus::from(NoMemory).code();
    start(rt, no_memory, |alloc, words, folder, out, err| {
        run_where(alloc, words, folder, out, err).code()
    })
}
