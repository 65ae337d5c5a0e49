//! Sets of points that keep the order in which their members are first found.

ghost use Rattle.std.specs.Prelude.{◌≡◌, ◌&&◌, ◌++◌, nat_eq, [], IfOk, OnOk};
ghost use Rattle.std.proofs.Common.{rules};
ghost use Rattle.std.specs.Hash as fed;
ghost use Rattle.std.specs.Ordering.{int_eq};
ghost use Rattle.std.specs.Cmp.Rules.{hashing};
ghost use Rattle.soup_files.specs.Vertices.{same_vertex, with_vertex, vertex_place};
ghost use Rattle.soup_files.specs.VertexKeys.{keys_per, keys_equiv};

use grid_coords::{DecimalPoint, DecimalPoints};
use indexmap::IndexSet;
use std::alloc::Global;
use std::hash::{Hash, Hasher};
use std::marker::Model;
use tet_ports::NoMemory;

/// A point, compared by its coordinates alone, whatever its line.
#[derive(Clone, Copy)]
pub(crate) struct Vertex {
    pub(crate) point: DecimalPoint,
}

impl PartialEq for Vertex {
    ghost eq = { λ p q. same_vertex p.point q.point };

    ghost laws = { keys_per };

    fn eq(&self, other: &Vertex) -> bool {
        let p = &self.point;
        let q = &other.point;
        p.x.value == q.x.value
            && p.x.scale == q.x.scale
            && (p.y.value == q.y.value && p.y.scale == q.y.scale)
            && (p.z.value == q.z.value && p.z.scale == q.z.scale)
    }
}

impl Eq for Vertex {
    ghost laws = { keys_equiv };
}

impl Hash for Vertex {
    ghost hash_input = { λ p. fed.i128 p.point.x.value ++ fed.u32 p.point.x.scale
        ++ fed.i128 p.point.y.value ++ fed.u32 p.point.y.scale
        ++ fed.i128 p.point.z.value ++ fed.u32 p.point.z.scale };

    ghost respects_eq = { Prim.search (hashing, rules) };

    fn hash<H: Hasher>(&self, state: &mut H) {
        self.point.x.value.hash(state);
        self.point.x.scale.hash(state);
        self.point.y.value.hash(state);
        self.point.y.scale.hash(state);
        self.point.z.value.hash(state);
        self.point.z.scale.hash(state);
    }
}

/// Points in the order in which they were first inserted. Of points with the same coordinates the
/// first stays. Contracts see the list of them.
#[derive(Drop)]
pub(crate) struct VertexSet {
    found: IndexSet<Vertex>,
    alloc: Global,
}

impl Model for VertexSet {
    ghost use Rattle.std.specs.Prelude.{List, map};
    ghost use Rattle.grid_coords.specs.declared.points.DecimalPoint.{DecimalPoint};

    ghost Value = { List DecimalPoint };

    ghost view = { λ s. map (λ v. v.point) s.found.keys };
}

impl VertexSet {
    /// A set with no point. It takes no memory yet.
    pub(crate) fn new(alloc: Global) -> Self
        ensures { result ≡ [] }
    {
        VertexSet {
            found: IndexSet::new(alloc),
            alloc,
        }
    }

    /// The place of the point, from 0; it is inserted unless the set has it.
    pub(crate) fn put(&mut self, point: DecimalPoint) -> Result<u64, NoMemory>
        ensures found { OnOk result (self.new ≡ with_vertex self.old point) }
        ensures place { IfOk result (λ place. place ≡ vertex_place self.old point) }
    {
        let (place, _) = self.found.insert_full(Vertex { point })?;
        Ok(place as u64)
    }

    /// The points, in their order.
    pub(crate) fn points(&self) -> Result<DecimalPoints, NoMemory>
        ensures { IfOk result (λ points. points ≡ self.now) }
    {
        let found = self.found.as_slice();
        let mut points = DecimalPoints::with_capacity(self.alloc, found.len())?;
        for v in found {
            points.push(v.point)?;
        }
        Ok(points)
    }
}
