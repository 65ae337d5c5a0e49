//! An example of the library: whether the texts of a mesh are those of a sound one.
#![tactic(auto)]

use mesh_check::{CheckFault, check_files};
use std::alloc::Global;
use std::io;
use tet_ports::{Bytes, MemFolder, Name, NoMemory};

const POINTS: &[u8] = b"5 3 0 0\n0 0 0 0\n1 2 0 0\n2 2 2 0\n3 0 2 0\n4 1 1 2\n";

const TETRAHEDRA: &[u8] = b"2 4 0\n0 0 1 3 4\n1 1 2 3 4\n";

/// The second tetrahedron has the first on the same side of the face that they share.
const OVERLAPPING: &[u8] = b"2 4 0\n0 0 1 3 4\n1 0 1 2 4\n";

const FACES: &[u8] = b"6 1\n0 0 1 3 1\n1 0 1 4 1\n2 0 3 4 1\n3 1 2 3 1\n4 1 2 4 1\n5 2 3 4 1\n";

/// Adds a file to a folder in memory.
fn add(alloc: Global, name: &[u8], text: &[u8], folder: &mut MemFolder) -> Result<(), NoMemory> {
    let name = Name::from_slice(alloc, name)?;
    let text = Bytes::from_slice(alloc, text)?;
    folder.add(&name, &text)
}

/// The number of tetrahedra of the pyramid with these tetrahedra, where its mesh is sound.
fn verdict(alloc: Global, tetrahedra: &[u8]) -> Result<usize, CheckFault> {
    let mut folder = MemFolder::new(alloc);
    add(alloc, b"pyramid.node", POINTS, &mut folder)?;
    add(alloc, b"pyramid.ele", tetrahedra, &mut folder)?;
    add(alloc, b"pyramid.face", FACES, &mut folder)?;
    let base = Name::from_slice(alloc, b"pyramid")?;
    check_files(alloc, &base, None, &mut folder)
}

fn main(rt: HostRuntime) -> io::Result<()> {
    for tetrahedra in [TETRAHEDRA, OVERLAPPING] {
        match verdict(rt.alloc(), tetrahedra) {
            Ok(count) => println!(rt; "sound: {count} tetrahedra")?,
            Err(fault) => println!(rt; "{fault:?}")?,
        }
    }
    Ok(())
}
