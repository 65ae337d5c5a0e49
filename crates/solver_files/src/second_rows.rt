//! The lines of tetrahedra and faces of second order.
ghost use Rattle.std.specs.Prelude.{◌≡◌, ◌<◌, ◌+◌, ◌^◌, ◌++◌, flat_map, length, All, OnOk};
ghost use Rattle.std.specs.List.{enumerate_from};
ghost use Rattle.geo_laws.specs.Delaunay.{numbers};
ghost use Rattle.mesh_files.specs.Texts.{marked_corners, AreNamed};
ghost use Rattle.solver_files.specs.Mesh.{mesh_of, IsWritten};
ghost use Rattle.solver_files.specs.Second.{second_of, IsSecond};
ghost use Rattle.solver_files.specs.SecondRows.{tet_edges, face_edges, twice, attribute_end, tet_front, tet_end, tet_row, tet_rows, face_front, face_end, face_row, face_rows};

use crate::attribute::{attribute_at, marker_tag, tet_tag};
use crate::line::{put_heading, put_number, put_signed};
use crate::second_mesh::put_corner_fields;
use crate::{SecondMesh, WholeMesh};
use geo_laws::{Side, Tet, side_of};
use mesh_files::FaceRow;
use tet_ports::{Bytes, NoMemory};

/// The order of midpoints behind the corners, and the form of a line.
#[derive(Clone, Copy, Debug, PartialEq, Eq)]
pub(crate) enum Format {
    /// The `.ele` and the `.face` file.
    Tetgen,
    Vtk,
    Gmsh,
}

/// The edges of a tetrahedron, in the order in which a format has their midpoints.
fn tet_edges(format: Format, row: Tet) -> [Side; 6]
    ensures { result ≡ tet_edges format row }
{
    let Tet { a, b, c, d } = row;
    let (ab, bc, ac) = (side_of(a, b), side_of(b, c), side_of(a, c));
    let (ad, bd, cd) = (side_of(a, d), side_of(b, d), side_of(c, d));
    match format {
        Format::Tetgen => [cd, ad, ab, bc, bd, ac],
        Format::Vtk => [ab, bc, ac, ad, bd, cd],
        Format::Gmsh => [ab, bc, ac, ad, cd, bd],
    }
}

/// The edges of a face, in the order in which a format has their midpoints.
fn face_edges(format: Format, face: FaceRow) -> [Side; 3]
    ensures { result ≡ face_edges format face }
{
    let FaceRow { a, b, c, marker: _ } = face;
    let (ab, bc, ac) = (side_of(a, b), side_of(b, c), side_of(a, c));
    match format {
        Format::Tetgen => [bc, ac, ab],
        Format::Vtk => [ab, bc, ac],
        Format::Gmsh => [ab, bc, ac],
    }
}

/// Appends a tag twice.
fn put_twice(tag: u32, out: &mut Bytes) -> Result<(), NoMemory>
    ensures { OnOk result (out.new ≡ out.old ++ twice tag) }
{
    put_number(u64::from(tag), out)?;
    out.push(b' ')?;
    put_number(u64::from(tag), out)
}

/// Appends what is in front of the corners of the tetrahedron at a place.
fn put_tet_front(
    format: Format,
    mesh: &WholeMesh<'_>,
    first: u32,
    place: usize,
    out: &mut Bytes,
) -> Result<(), NoMemory>
    requires mesh { IsWritten (mesh_of mesh.now) }
    requires place { place < length mesh.now.list.now }
    requires small { place < 2 ^ 63 }
    ensures { OnOk result (out.new
        ≡ out.old ++ tet_front format (mesh_of mesh.now) first place) }
{
    let number = place as u64 + u64::from(first);
    match format {
        Format::Tetgen => put_number(number, out),
        Format::Vtk => out.append(b"10"),
        Format::Gmsh => {
            put_heading(b"", u128::from(number), b" 11 2 ", out)?;
            put_twice(tet_tag(mesh, place), out)
        }
    }
}

/// Appends the attribute of the tetrahedron at a place, where tetrahedra have some.
fn put_attribute(mesh: &WholeMesh<'_>, place: usize, out: &mut Bytes) -> Result<(), NoMemory>
    requires mesh { IsWritten (mesh_of mesh.now) }
    requires place { place < length mesh.now.list.now }
    ensures { OnOk result (out.new ≡ out.old ++ tet_end Format.Tetgen (mesh_of mesh.now) place) }
{
    if mesh.marks.is_some() {
        out.push(b' ')?;
        out.append(attribute_at(mesh, place))?;
    }
    out.push(b'\n')
}

/// Appends what is behind the corners of the tetrahedron at a place.
fn put_tet_end(
    format: Format,
    mesh: &WholeMesh<'_>,
    place: usize,
    out: &mut Bytes,
) -> Result<(), NoMemory>
    requires mesh { IsWritten (mesh_of mesh.now) }
    requires place { place < length mesh.now.list.now }
    ensures { OnOk result (out.new ≡ out.old ++ tet_end format (mesh_of mesh.now) place) }
{
    match format {
        Format::Tetgen => put_attribute(mesh, place, out),
        Format::Vtk => out.push(b'\n'),
        Format::Gmsh => out.push(b'\n'),
    }
}

/// Appends the line of the tetrahedron at a place.
fn put_tet_row(
    format: Format,
    mesh: &SecondMesh<'_>,
    first: u32,
    place: usize,
    row: Tet,
    out: &mut Bytes,
) -> Result<(), NoMemory>
    requires mesh { IsSecond (second_of mesh.now) }
    requires place { place < length mesh.now.whole.list.now }
    requires small { place < 2 ^ 63 }
    requires named { AreNamed mesh.now.whole.names.now (numbers row) }
    ensures { OnOk result (out.new
        ≡ out.old ++ tet_row format (second_of mesh.now) first place row) }
{
    let Tet { a, b, c, d } = row;
    put_tet_front(format, &mesh.whole, first, place, out)?;
    put_corner_fields(mesh, first, &[a, b, c, d], &tet_edges(format, row), out)?;
    put_tet_end(format, &mesh.whole, place, out)
}

/// Appends the lines of the tetrahedra, whose numbers and whose corners are counted from `first`.
pub(crate) fn put_tet_rows(
    format: Format,
    mesh: &SecondMesh<'_>,
    first: u32,
    out: &mut Bytes,
) -> Result<(), NoMemory>
    requires { IsSecond (second_of mesh.now) }
    ensures { OnOk result (out.new ≡ out.old ++ tet_rows format (second_of mesh.now) first) }
{
    for i in 0..mesh.whole.list.len() {
        put_tet_row(format, mesh, first, i, mesh.whole.list.at(i), out)?;
    }
    Ok(())
}

/// Appends what is in front of the corners of the face at a place.
fn put_face_front(
    format: Format,
    mesh: &WholeMesh<'_>,
    first: u32,
    place: usize,
    face: FaceRow,
    out: &mut Bytes,
) -> Result<(), NoMemory>
    requires { place < 2 ^ 63 }
    ensures { OnOk result (out.new
        ≡ out.old ++ face_front format (mesh_of mesh.now) first place face) }
{
    let number = place as u64 + u64::from(first);
    match format {
        Format::Tetgen => put_number(number, out),
        Format::Vtk => out.append(b"6"),
        Format::Gmsh => {
            let number = mesh.list.len() as u128 + place as u128 + u128::from(first);
            put_heading(b"", number, b" 9 2 ", out)?;
            put_twice(marker_tag(face.marker), out)
        }
    }
}

/// Appends what is behind the corners of a face.
fn put_face_end(format: Format, face: FaceRow, out: &mut Bytes) -> Result<(), NoMemory>
    ensures { OnOk result (out.new ≡ out.old ++ face_end format face) }
{
    if format == Format::Tetgen {
        out.push(b' ')?;
        put_signed(face.marker, out)?;
    }
    out.push(b'\n')
}

/// Appends the line of the face at a place.
fn put_face_row(
    format: Format,
    mesh: &SecondMesh<'_>,
    first: u32,
    place: usize,
    face: FaceRow,
    out: &mut Bytes,
) -> Result<(), NoMemory>
    requires mesh { IsSecond (second_of mesh.now) }
    requires place { place < 2 ^ 63 }
    requires named { AreNamed mesh.now.whole.names.now (marked_corners face) }
    ensures { OnOk result (out.new
        ≡ out.old ++ face_row format (second_of mesh.now) first place face) }
{
    let FaceRow { a, b, c, marker: _ } = face;
    put_face_front(format, &mesh.whole, first, place, face, out)?;
    put_corner_fields(mesh, first, &[a, b, c], &face_edges(format, face), out)?;
    put_face_end(format, face, out)
}

/// Appends the lines of the faces, whose numbers and whose corners are counted from `first`.
pub(crate) fn put_face_rows(
    format: Format,
    mesh: &SecondMesh<'_>,
    first: u32,
    out: &mut Bytes,
) -> Result<(), NoMemory>
    requires { IsSecond (second_of mesh.now) }
    ensures { OnOk result (out.new ≡ out.old ++ face_rows format (second_of mesh.now) first) }
{
    for i in 0..mesh.whole.faces.len() {
        put_face_row(format, mesh, first, i, mesh.whole.faces.at(i), out)?;
    }
    Ok(())
}
