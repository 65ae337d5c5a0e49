//! Why a complex of arrays has no mesh, or why its mesh is not handed over.

ghost use Rattle.std.specs.Prelude.{◌≡◌};
ghost use Rattle.array_meshes.specs.Meshes.{code_of, mesh_code, wanted_of};

use complex_mesh::MeshFault;
use tet_ports::NoMemory;

/// How long the lists of a mesh are, and the number of halvings: a coordinate of the mesh is a
/// whole number over 2^halvings.
#[repr(C)]
#[derive(Clone, Copy, Debug, PartialEq, Eq)]
pub struct Counts {
    pub points: usize,
    pub cells: usize,
    pub faces: usize,
    pub halvings: u32,
}

/// Why a complex of arrays has no mesh, or why its mesh is not handed over.
#[derive(Clone, Copy, Debug, PartialEq, Eq)]
pub enum ComplexFault {
    /// There are more than 4,000,000 points, or more than 100,000,000 may be added.
    TooMany,
    /// A coordinate of a point is over 2^29 in size.
    OffGrid,
    /// A facet names a polygon that is not there, or one of its polygons a corner that is not
    /// there, or a corner a point.
    BadIndex,
    /// The complex on the points has no mesh; of equal points the first counts, and others have no
    /// number.
    Unmeshed { fault: MeshFault },
    /// A list of the mesh is longer than the array that is to take it; the lengths.
    NoRoom { counts: Counts },
    /// Out of memory.
    NoMemory,
}

impl From<NoMemory> for ComplexFault {
    ghost use Rattle.array_meshes.specs.declared.fault.ComplexFault.TheVariants.{NoMemory as OutOfMemory};

    ghost from_gives = { λ _ fault. fault ≡ OutOfMemory };

    fn from(_: NoMemory) -> ComplexFault {
        ComplexFault::NoMemory
    }
}

/// The status of a complex that has no mesh.
fn mesh_code(fault: &MeshFault) -> u8
    ensures { result ≡ mesh_code fault.now }
{
    match fault {
        MeshFault::Flat => 6,
        MeshFault::NotFlat { .. } => 6,
        MeshFault::SegmentsCross { .. } => 6,
        MeshFault::Crossing { .. } => 6,
        MeshFault::GridEnd { .. } => 7,
        MeshFault::BudgetEnd { .. } => 8,
        MeshFault::NoFill { .. } => 9,
        MeshFault::NoMemory => 10,
    }
}

impl ComplexFault {
    /// The status with which a call ends: those of the program, and 20 for want of room.
    pub fn code(&self) -> u8
        ensures { result ≡ code_of self.now }
    {
        match self {
            ComplexFault::BadIndex => 4,
            ComplexFault::TooMany => 5,
            ComplexFault::OffGrid => 5,
            ComplexFault::Unmeshed { fault } => mesh_code(fault),
            ComplexFault::NoMemory => 10,
            ComplexFault::NoRoom { .. } => 20,
        }
    }

    /// The lengths of the lists for which there is no room, and 0 for any other fault.
    pub fn wanted(&self) -> Counts
        ensures { result ≡ wanted_of self.now }
    {
        match self {
            ComplexFault::NoRoom { counts } => *counts,
            _ => Counts {
                points: 0,
                cells: 0,
                faces: 0,
                halvings: 0,
            },
        }
    }
}
