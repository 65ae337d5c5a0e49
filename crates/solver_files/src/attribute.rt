//! The attributes of regions.
ghost use Rattle.std.specs.Prelude.{◌≡◌, ◌<◌, ◌≤◌, length, All, IfSome};
ghost use Rattle.std.specs.Option.{option_copied};
ghost use Rattle.mesh_files.specs.Texts.{attribute_of};
ghost use Rattle.solver_files.specs.Mesh.{mesh_of, mark_at, attribute_at, scalar_of, tag_of, tag_of_text, tet_tag, marker_tag};
ghost use Rattle.solver_files.specs.Mesh.{IsWritten};

use crate::WholeMesh;
use geo_laws::Complex;
use incidence::Marks;
use tet_text::{decimal_in, read_digits};

/// The greatest tag of a group of elements, 2^31 - 1.
const MOST: u128 = 2_147_483_647;

/// The mark of the tetrahedron at a place, and none where there are no marks.
fn mark_at(marks: Option<&Marks>, place: usize) -> Option<u32>
    requires { IfSome marks (λ m. place < length m.now) }
    ensures { result ≡ mark_at (option_copied marks.entry) place }
{
    match marks {
        Some(marks) => marks.at(place),
        None => None,
    }
}

/// The attribute of the region that the mark names, and `0` where there is none.
fn attribute_of(complex: &Complex, mark: Option<u32>) -> &[u8]
    requires { IfSome mark (λ r. r < length complex.now.regions) }
    ensures { result.now ≡ attribute_of complex.now.regions mark }
{
    match mark {
        Some(region) => complex.region(region).attribute.as_slice(),
        None => b"0",
    }
}

/// The attribute of the tetrahedron at a place, and `0` where it has none.
pub(crate) fn attribute_at<'a>(mesh: &WholeMesh<'a>, place: usize) -> &'a [u8]
    requires mesh { IsWritten (mesh_of mesh.now) }
    requires place { place < length mesh.now.list.now }
    ensures { result.now ≡ attribute_at (mesh_of mesh.now) place }
{
    attribute_of(mesh.complex, mark_at(mesh.marks, place))
}

/// An attribute as it is written where it is a decimal, and else `0`.
pub(crate) fn scalar_of(attribute: &[u8]) -> &[u8]
    ensures { result.now ≡ scalar_of attribute.now }
{
    match decimal_in(attribute) {
        Some(_) => attribute,
        None => b"0",
    }
}

/// The tag of a number, and 0 where it is too great.
fn tag_of(n: u128) -> u32
    ensures { result ≡ tag_of n }
{
    if n <= MOST { n as u32 } else { 0 }
}

/// The tag that an attribute writes in digits alone, and 0 where it writes none.
fn tag_of_text(attribute: &[u8]) -> u32
    ensures { result ≡ tag_of_text attribute.now }
{
    match read_digits(attribute, 18) {
        Some(n) => tag_of(n),
        None => 0,
    }
}

/// The tag of the tetrahedron at a place: what its attribute writes, and 1 where no tetrahedron has
/// an attribute.
pub(crate) fn tet_tag(mesh: &WholeMesh<'_>, place: usize) -> u32
    requires mesh { IsWritten (mesh_of mesh.now) }
    requires place { place < length mesh.now.list.now }
    ensures { result ≡ tet_tag (mesh_of mesh.now) place }
{
    match mesh.marks {
        Some(_) => tag_of_text(attribute_at(mesh, place)),
        None => 1,
    }
}

/// The tag of a marker, and 0 where it is none.
pub(crate) fn marker_tag(marker: i64) -> u32
    ensures { result ≡ marker_tag marker }
{
    if marker >= 0 {
        tag_of(marker as u128)
    } else {
        0
    }
}
