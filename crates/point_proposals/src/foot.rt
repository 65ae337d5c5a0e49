//! Feet and distances of points from planes and lines.
use crate::region::{Ranked, Region};
use mesh_parts::{Beyond, Field, Mesh, Sphere, Spot, rounded};
use std::alloc::Global;
use tet_ports::NoMemory;

/// The normal of a triangle, shifted down to 29 bits.
fn normal_of(corners: &[Spot; 3]) -> Spot {
    let [a, b, c] = *corners;
    let n = b.from(a).cross(c.from(a));
    n.over_power(n.bits_above(29))
}

/// Whether a point is at least half a length from a plane, where the square of the length is given.
pub(crate) fn is_far_from_plane(corners: &[Spot; 3], p: Spot, square: u64) -> bool {
    let n = normal_of(corners);
    let height = n.dot(p.from(corners[0]));
    let over = height
        .wrapping_mul(height)
        .checked_div(n.dot(n))
        .unwrap_or(0);
    over.wrapping_mul(4) >= i128::from(square)
}

/// Whether a point is at least half a length from a line, where the square of the length is given.
pub(crate) fn is_far_from_line(a: Spot, b: Spot, p: Spot, square: u64) -> bool {
    let u = b.from(a);
    let n = u.cross(p.from(a));
    let over = n.dot(n).checked_div(u.dot(u)).unwrap_or(0);
    over.wrapping_mul(4) >= i128::from(square)
}

/// The vector to a point from its foot in the plane of a triangle.
fn above(corners: &[Spot; 3], p: Spot) -> Option<Spot> {
    let n = normal_of(corners);
    let height = n.dot(p.from(corners[0]));
    let square = n.dot(n);
    let part = |x: i64| {
        let whole = rounded(height.wrapping_mul(i128::from(x)), square);
        i64::try_from(whole).ok()
    };
    Some(Spot {
        x: part(n.x)?,
        y: part(n.y)?,
        z: part(n.z)?,
    })
}

/// The foot of a point in the plane of a subface.
pub(crate) fn foot_of(mesh: &Mesh, s: u32, p: Spot) -> Option<Spot> {
    let corners = mesh.triangle(s)?;
    Some(p.from(above(&corners, p)?))
}

/// The square of the radius of the disc in which a sphere meets the plane of a subface, where the
/// center is beyond the subface from a corner and the sphere reaches the plane.
fn disc_at(mesh: &Mesh, s: u32, corner: Spot, center: Spot, radius: u64) -> Option<u64> {
    let corners = mesh.triangle(s)?;
    let n = normal_of(&corners);
    let inner = n.dot(corner.from(corners[0])).signum();
    let outer = n.dot(center.from(corners[0])).signum();
    if inner == outer {
        return None;
    }
    let height = above(&corners, center)?.squared();
    radius.checked_sub(height)
}

/// The most facets that hide a center.
const MOST: usize = 8;

/// The subfaces that hide a center from the tetrahedra of a region, one of each facet, while they
/// are found.
#[derive(Drop)]
struct Hiding<'a> {
    field: &'a Field<'a>,
    center: Spot,
    radius: u64,
    least: u64,
    found: Vec<Ranked>,
}

impl<'a> Hiding<'a> {
    /// Whether a subface of the facet was found.
    fn has_facet(&self, facet: u32) -> bool {
        for ranked in self.found.as_slice() {
            if self.field.mesh.facet(ranked.place) == Some(facet) {
                return true;
            }
        }
        false
    }

    /// Notes a subface, seen from a corner.
    fn note(&mut self, s: u32, corner: Spot) -> Result<(), NoMemory> {
        let mesh = self.field.mesh;
        let disc = disc_at(mesh, s, corner, self.center, self.radius);
        if let (Some(disc), Some(facet)) = (disc, mesh.facet(s)) {
            if disc >= self.least && self.found.len() < MOST && !self.has_facet(facet) {
                self.found.push(Ranked::new(s, disc))?;
            }
        }
        Ok(())
    }

    /// Notes the subfaces of a tetrahedron.
    fn note_cell(&mut self, t: u32) -> Result<(), NoMemory> {
        let (Some(cell), Some(corners)) = (self.field.mesh.cell(t), self.field.mesh.corners(t))
        else {
            return Ok(());
        };
        for k in 0..4 {
            if let Beyond::Subface(s) = cell.across[k] {
                self.note(s, corners[k])?;
            }
        }
        Ok(())
    }
}

/// The subfaces that hide the circumcenter of a tetrahedron in its region, one of each facet, those
/// with the largest disc in the circumsphere first. The discs have a radius of at least half a
/// length with this square.
pub(crate) fn hiding_subfaces(
    alloc: Global,
    field: &Field,
    region: &Region,
    sphere: Sphere,
    square: u64,
) -> Result<Vec<Ranked>, NoMemory> {
    let mut hiding = Hiding {
        field,
        center: sphere.center,
        radius: sphere.squared,
        least: square / 4,
        found: Vec::new(alloc),
    };
    for t in region.cells.as_slice() {
        hiding.note_cell(*t)?;
    }
    let Hiding { mut found, .. } = hiding;
    found.sort_unstable();
    Ok(found)
}
