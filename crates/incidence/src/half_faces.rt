//! Faces of tetrahedra by the corners opposite them.
ghost use Rattle.std.specs.Prelude.{◌≡◌, ◌↔◌, [], ◌∷◌, ◌++◌, ◌+◌, ◌<◌, true, length, All};
ghost use Rattle.std.specs.Prelude.{AllPairs, Contains, IsTrue, OnOk, vec_len, vec_capacity};
ghost use Rattle.geo_laws.specs.Faces.{face_of};
ghost use Rattle.incidence.specs.HalfFaces.{opposite_row_face, point_at, corner_number};
ghost use Rattle.incidence.specs.HalfFaces.{corner_numbered, use_of, used, marks_of};
ghost use Rattle.incidence.specs.HalfFaces.{IsAscendingRow, IsByRow};
ghost use Rattle.incidence.specs.Pairs.{is_face, has_face};
ghost use Rattle.incidence.specs.Uses.{AreFirstsMarked};
ghost use Rattle.incidence.specs.declared.uses.Use.{Use};

use crate::uses::Use;
use geo_laws::{Face, Tet, TetList, face_of};
use tet_ports::NoMemory;

/// A corner of a tetrahedron.
#[derive(Clone, Copy, Debug, PartialEq, Eq)]
pub enum Corner {
    A,
    B,
    C,
    D,
}

/// A face of a tetrahedron of a list, by the tetrahedron's place, from 0, and the corner opposite
/// the face, with a mark: whether it is the first use of its face in a list of uses.
#[derive(Clone, Copy, Debug, PartialEq, Eq)]
pub struct HalfFace {
    pub row: u32,
    pub opposite: Corner,
    pub first: bool,
}

/// The face of a tetrahedron opposite a corner.
pub(crate) fn opposite_face(row: Tet, corner: Corner) -> Face
    ensures { result ≡ opposite_row_face row corner }
{
    let Tet { a, b, c, d } = row;
    match corner {
        Corner::A => face_of(b, c, d),
        Corner::B => face_of(a, c, d),
        Corner::C => face_of(a, b, d),
        Corner::D => face_of(a, b, c),
    }
}

/// The point at a corner of a tetrahedron.
pub(crate) fn point_at(row: Tet, corner: Corner) -> u32
    ensures { result ≡ point_at row corner }
{
    match corner {
        Corner::A => row.a,
        Corner::B => row.b,
        Corner::C => row.c,
        Corner::D => row.d,
    }
}

/// The place of a corner in its row, from 0.
pub(crate) fn number_of(corner: Corner) -> usize
    ensures number { result ≡ corner_number corner }
    ensures small { result < 4 }
{
    match corner {
        Corner::A => 0,
        Corner::B => 1,
        Corner::C => 2,
        Corner::D => 3,
    }
}

/// The corner at this place in its row.
pub(crate) fn corner_numbered(number: u64) -> Corner
    ensures { result ≡ corner_numbered number }
{
    match number {
        0 => Corner::A,
        1 => Corner::B,
        2 => Corner::C,
        _ => Corner::D,
    }
}

/// For each corner whether `face` is the face opposite it: the corner's point and those of the face
/// have the same sum as the four corners.
fn are_opposite(row: Tet, face: Face) -> [bool; 4]
    requires { has_face face row ≡ true }
    ensures { result ≡ is_face (face_of row.b row.c row.d) face ∷ is_face
        (face_of row.a row.c row.d) face
        ∷ is_face (face_of row.a row.b row.d) face ∷ is_face (face_of row.a row.b row.c) face ∷ [] }
{
    let of_face = u64::from(face.a) + u64::from(face.b) + u64::from(face.c);
    let [a, b, c, d] = [
        u64::from(row.a),
        u64::from(row.b),
        u64::from(row.c),
        u64::from(row.d),
    ];
    let of_row = a + b + c + d;
    [
        a + of_face == of_row,
        b + of_face == of_row,
        c + of_face == of_row,
        d + of_face == of_row,
    ]
}

/// Whether the corners of each tetrahedron ascend, but for the order of the last two.
pub(crate) fn are_arranged(list: &TetList) -> bool
    ensures { IsTrue result → All IsAscendingRow list.now }
{
    list.as_slice().iter().all(|row| is_arranged(*row))
}

/// Whether the corners of a tetrahedron ascend, but for the order of the last two.
fn is_arranged(row: Tet) -> bool
    ensures { IsTrue result ↔ IsAscendingRow row }
{
    let Tet { a, b, c, d } = row;
    (a < b) & (b < c) & (b < d) & (c != d)
}

/// The first corner of the tetrahedron opposite `face`.
fn corner_opposite(row: Tet, face: Face) -> Corner
    requires { has_face face row ≡ true }
    ensures { opposite_row_face row result ≡ face }
{
    let [a, b, c, _] = are_opposite(row, face);
    if a {
        return Corner::A;
    }
    if b {
        return Corner::B;
    }
    if c {
        return Corner::C;
    }
    Corner::D
}

/// The use of a half-face: its face and its tetrahedron.
pub(crate) fn use_of(list: &TetList, half: HalfFace) -> Use
    requires { half.row < length list.now }
    ensures { result ≡ use_of list.now half }
{
    Use {
        face: opposite_face(list.at(half.row as usize), half.opposite),
        row: half.row,
    }
}

/// Appends a use, for which there is room, and marks whether it is the first one of its face.
fn push_half(halves: &mut Vec<HalfFace>, list: &TetList, new_use: Use, first: bool)
    requires by_row { IsByRow list.now new_use }
    requires room { vec_len halves.old < vec_capacity halves.old }
    ensures used { used list.now halves.new.items ≡ used list.now halves.old.items ++ new_use ∷ [] }
    ensures marked { marks_of halves.new.items ≡ marks_of halves.old.items ++ first ∷ [] }
    ensures longer { vec_len halves.new ≡ vec_len halves.old + 1 }
    ensures capacity { vec_capacity halves.new ≡ vec_capacity halves.old }
{
    let Use { face, row } = new_use;
    halves.push_reserved(HalfFace {
        row,
        opposite: corner_opposite(list.at(row as usize), face),
        first,
    });
}

/// Appends uses, whose faces have no earlier use, and marks the first use of each face.
pub(crate) fn push_halves(
    halves: &mut Vec<HalfFace>,
    list: &TetList,
    uses: &[Use],
) -> Result<(), NoMemory>
    requires by_rows { All (IsByRow list.now) uses.now }
    requires marked { AreFirstsMarked (used list.now halves.old.items) (marks_of halves.old.items) }
    requires apart { (u v : Use) → Contains (used list.now halves.old.items) u → Contains uses.now v
        → ¬ (u.face ≡ v.face) }
    ensures used { OnOk result (used list.now halves.new.items ≡ used list.now halves.old.items
        ++ uses.now) }
    ensures marked { OnOk result (AreFirstsMarked (used list.now halves.new.items)
        (marks_of halves.new.items)) }
{
    halves.reserve(uses.len())?;
    for at in 0..uses.len() {
        let first = at == 0 || uses[at - 1].face != uses[at].face;
        push_half(halves, list, uses[at], first);
    }
    Ok(())
}

/// Appends the uses of half-faces.
pub(crate) fn append_uses(
    uses: &mut Vec<Use>,
    list: &TetList,
    halves: &[HalfFace],
) -> Result<(), NoMemory>
    requires { All (λ h. h.row < length list.now) halves.now }
    ensures { OnOk result (uses.new.items ≡ uses.old.items ++ used list.now halves.now) }
{
    for half in halves {
        uses.push(use_of(list, *half))?;
    }
    Ok(())
}
