//! The points that are first corners of faces.
ghost use Rattle.std.specs.Prelude.{◌<◌, ℕ, length, IfOk};
ghost use Rattle.incidence.specs.Chains.{face_at, AreBegun};

use geo_laws::Face;
use std::alloc::Global;
use tet_ports::NoMemory;

/// One more than the greatest first corner.
fn corner_count(faces: &[Face]) -> usize
    ensures { (k : ℕ) → k < length faces.now → (face_at faces.now k).a < result }
{
    let mut count = 0;
    for at in 0..faces.len() {
        count = count.max(faces[at].a as usize + 1);
    }
    count
}

/// One mark per point, up to the greatest first corner: whether it is the first corner of a face.
pub(crate) fn beginnings_of(alloc: Global, faces: &[Face]) -> Result<Vec<bool>, NoMemory>
    ensures { IfOk result (λ begins. AreBegun faces.now begins.items) }
{
    let mut begins = Vec::new(alloc);
    begins.resize(corner_count(faces), false)?;
    for at in 0..faces.len() {
        begins[faces[at].a as usize] = true;
    }
    Ok(begins)
}
