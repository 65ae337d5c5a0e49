//! A mesh from its points, tetrahedra and subfaces.
use crate::mesh::{Beyond, Cell, Link, Mesh, Subface};
use crate::spot::{Spot, spot_of, volume};
use crate::table::order_by;
use geo_laws::{Face, FacetTriangle, FacetTriangles, Points, Side, Tet, TetList, face_of, side_of};
use incidence::{Across, pair_faces};
use std::alloc::Global;
use tet_ports::NoMemory;

/// An edge of a subface, with the subface and the place of the corner opposite.
#[derive(Clone, Copy)]
struct FaceEdge {
    side: Side,
    subface: u32,
    opposite: u8,
}

/// The least corner of a triangle that is a corner of the complex.
fn own_corner(t: &FacetTriangle, own: usize) -> Option<u32> {
    let least = t.a.min(t.b).min(t.c);
    if (least as usize) < own {
        Some(least)
    } else {
        None
    }
}

/// The number of facets up to the last one that has a triangle.
fn facets_of(triangles: &[FacetTriangle]) -> usize {
    let mut count = 0_usize;
    for t in triangles {
        count = count.max((t.facet as usize).saturating_add(1));
    }
    count
}

/// For each facet a corner of the complex in it: that of the first triangle that has one.
fn anchors_of(
    alloc: Global,
    triangles: &[FacetTriangle],
    facets: usize,
    own: usize,
) -> Result<Vec<Option<u32>>, NoMemory> {
    let mut anchors = Vec::new(alloc);
    anchors.resize(facets, None)?;
    for t in triangles {
        let facet = t.facet as usize;
        if facet < anchors.len() && anchors[facet].is_none() {
            anchors[facet] = own_corner(t, own);
        }
    }
    Ok(anchors)
}

/// The triangles in the order of their corners, and those with the same ones in that of their
/// facets.
fn by_corners(
    alloc: Global,
    triangles: &[FacetTriangle],
    facets: usize,
    points: usize,
) -> Result<Vec<FacetTriangle>, NoMemory> {
    let by_facet = order_by(alloc, triangles, facets, |t| t.facet)?;
    let by_c = order_by(alloc, by_facet.as_slice(), points, |t| t.c)?;
    let by_b = order_by(alloc, by_c.as_slice(), points, |t| t.b)?;
    order_by(alloc, by_b.as_slice(), points, |t| t.a)
}

/// The subfaces of triangles. `own` is the number of corners of the complex.
fn subfaces_of(
    alloc: Global,
    triangles: &[FacetTriangle],
    facets: usize,
    own: usize,
) -> Result<Vec<Subface>, NoMemory> {
    let anchors = anchors_of(alloc, triangles, facets, own)?;
    let mut subfaces = Vec::with_capacity(alloc, triangles.len())?;
    for t in triangles {
        subfaces.push(Subface {
            face: face_of(t.a, t.b, t.c),
            facet: t.facet,
            anchor: anchors.get(t.facet as usize).copied().flatten(),
        })?;
    }
    Ok(subfaces)
}

/// The corners of the subfaces.
fn faces_of(alloc: Global, subfaces: &[Subface]) -> Result<Vec<Face>, NoMemory> {
    let mut faces = Vec::with_capacity(alloc, subfaces.len())?;
    for subface in subfaces {
        faces.push(subface.face)?;
    }
    Ok(faces)
}

/// The edges of the subfaces, in the order of their ends.
fn face_edges(alloc: Global, faces: &[Face], points: usize) -> Result<Vec<FaceEdge>, NoMemory> {
    let mut edges = Vec::new(alloc);
    for i in 0..faces.len() {
        let Face { a, b, c } = faces[i];
        let Ok(subface) = u32::try_from(i) else { break };
        for (side, opposite) in [(side_of(b, c), 0), (side_of(a, c), 1), (side_of(a, b), 2)] {
            edges.push(FaceEdge {
                side,
                subface,
                opposite,
            })?;
        }
    }
    let by_second = order_by(alloc, edges.as_slice(), points, |edge| edge.side.b)?;
    order_by(alloc, by_second.as_slice(), points, |edge| edge.side.a)
}

/// The number of edges at the beginning of a list that are one edge.
fn run_length(edges: &[FaceEdge]) -> usize {
    let Some(first) = edges.first() else { return 0 };
    for i in 0..edges.len() {
        if edges[i].side != first.side {
            return i;
        }
    }
    edges.len()
}

/// The facet of the subface that has an edge.
fn facet_of(subfaces: &[Subface], edge: &FaceEdge) -> Option<u32> {
    Some(subfaces.get(edge.subface as usize)?.facet)
}

/// The links of the subfaces while they are made, and the subsegments.
#[derive(Drop)]
struct Links {
    links: Vec<[Link; 3]>,
    subsegments: Vec<Side>,
}

impl Links {
    /// Sets what is across an edge of a subface.
    fn put(&mut self, edge: &FaceEdge, link: Link) {
        let subface = edge.subface as usize;
        let place = edge.opposite as usize;
        if subface < self.links.len() && place < 3 {
            self.links[subface][place] = link;
        }
    }

    /// Links two subfaces of a facet at their edge.
    fn join(&mut self, one: &FaceEdge, other: &FaceEdge) {
        self.put(one, Link::Subface(other.subface));
        self.put(other, Link::Subface(one.subface));
    }

    /// Makes a subsegment of an edge of subfaces.
    fn part(&mut self, run: &[FaceEdge]) -> Result<(), NoMemory> {
        let Some(first) = run.first() else {
            return Ok(());
        };
        let Ok(place) = u32::try_from(self.subsegments.len()) else {
            return Ok(());
        };
        self.subsegments.push(first.side)?;
        for edge in run {
            self.put(edge, Link::Subsegment(place));
        }
        Ok(())
    }

    /// Links the subfaces at an edge: exactly two of one facet to each other.
    fn link(&mut self, run: &[FaceEdge], subfaces: &[Subface]) -> Result<(), NoMemory> {
        if run.len() == 2 {
            let (one, other) = (&run[0], &run[1]);
            if facet_of(subfaces, one) == facet_of(subfaces, other) {
                self.join(one, other);
                return Ok(());
            }
        }
        self.part(run)
    }
}

/// What is across the edges of the subfaces, and the subsegments.
fn links_of(
    alloc: Global,
    faces: &[Face],
    subfaces: &[Subface],
    points: usize,
) -> Result<Links, NoMemory> {
    let edges = face_edges(alloc, faces, points)?;
    let mut links = Links {
        links: Vec::new(alloc),
        subsegments: Vec::new(alloc),
    };
    links.links.resize(faces.len(), [Link::Nothing; 3])?;
    let mut first = 0;
    for _ in 0..edges.len() {
        let rest = edges.get(first..).unwrap_or(&[]);
        let run = rest.get(..run_length(rest)).unwrap_or(&[]);
        links.link(run, subfaces)?;
        first = first.saturating_add(run.len());
    }
    Ok(links)
}

/// For each point whether it is the corner of one of the faces.
fn marked(alloc: Global, points: usize, faces: &[Face]) -> Result<Vec<bool>, NoMemory> {
    let mut marks = Vec::new(alloc);
    marks.resize(points, false)?;
    for face in faces {
        mark(&mut marks, face.a);
        mark(&mut marks, face.b);
        mark(&mut marks, face.c);
    }
    Ok(marks)
}

/// Sets a mark.
pub fn mark(marks: &mut [bool], place: u32) {
    let place = place as usize;
    if place < marks.len() {
        marks[place] = true;
    }
}

/// The places of the points.
fn spots_of(alloc: Global, points: &Points) -> Result<Vec<Spot>, NoMemory> {
    let mut spots = Vec::with_capacity(alloc, points.len())?;
    for p in points.as_slice() {
        spots.push(spot_of(*p))?;
    }
    Ok(spots)
}

impl Mesh {
    /// What is across the face of three corners, where this is the neighbor there.
    fn beyond(&self, a: u32, b: u32, c: u32, neighbor: Option<usize>) -> Beyond {
        if let Some(s) = self.subface_of(a, b, c) {
            return Beyond::Subface(s);
        }
        let Some(t) = neighbor else {
            return Beyond::Outside;
        };
        match u32::try_from(t) {
            Ok(t) => Beyond::Tetrahedron(t),
            Err(_) => Beyond::Outside,
        }
    }

    /// Whether the corners of a tetrahedron are in negative order.
    fn is_negative(&self, row: Tet) -> Option<bool> {
        let (a, b) = (self.spot(row.a)?, self.spot(row.b)?);
        let (c, d) = (self.spot(row.c)?, self.spot(row.d)?);
        Some(volume(a, b, c, d) < 0)
    }

    /// The tetrahedron, with its last two corners exchanged where it is not positive.
    fn made(&self, row: Tet, across: Across) -> Cell {
        let Tet { a, b, c, d } = row;
        let first = self.beyond(b, c, d, across.n0);
        let second = self.beyond(a, c, d, across.n1);
        let third = self.beyond(a, b, d, across.n2);
        let last = self.beyond(a, b, c, across.n3);
        if self.is_negative(row) == Some(true) {
            return Cell {
                corners: [a, b, d, c],
                across: [first, second, last, third],
            };
        }
        Cell {
            corners: [a, b, c, d],
            across: [first, second, third, last],
        }
    }

    /// Makes the tetrahedra of a list.
    fn fill(&mut self, alloc: Global, list: &TetList) -> Result<(), NoMemory> {
        let pairs = pair_faces(alloc, list)?;
        self.cells.reserve(list.len())?;
        for i in 0..list.len() {
            if i < pairs.len() {
                let cell = self.made(list.at(i), pairs.at(i));
                self.cells.push(cell)?;
            }
        }
        Ok(())
    }
}

/// The mesh of points, tetrahedra and subfaces; the first points are corners of the complex.
pub fn mesh_of(
    alloc: Global,
    points: &Points,
    tetrahedra: &TetList,
    triangles: &FacetTriangles,
    own: usize,
) -> Result<Mesh, NoMemory> {
    let facets = facets_of(triangles.as_slice());
    let ordered = by_corners(alloc, triangles.as_slice(), facets, points.len())?;
    let subfaces = subfaces_of(alloc, ordered.as_slice(), facets, own)?;
    let faces = faces_of(alloc, subfaces.as_slice())?;
    let Links { links, subsegments } = links_of(
        alloc,
        faces.as_slice(),
        subfaces.as_slice(),
        points.len(),
    )?;
    let on_boundary = marked(alloc, points.len(), faces.as_slice())?;
    let mut mesh = Mesh {
        spots: spots_of(alloc, points)?,
        cells: Vec::new(alloc),
        subfaces,
        facets,
        faces,
        links,
        subsegments,
        on_boundary,
        mosts: Vec::new(alloc),
    };
    mesh.fill(alloc, tetrahedra)?;
    Ok(mesh)
}
