//! The edges of a star, by the corners at their ends.
ghost use Rattle.std.specs.Prelude.{◌≡◌, ◌<◌};
ghost use Rattle.mesh_arena.specs.Edges.{edge_of, square_place};

use crate::rows::ROWS;

/// The ends of an edge, by the numbers of the corners, the lesser first.
#[derive(Clone, Copy, Debug, PartialEq, Eq)]
pub(crate) struct Edge {
    pub(crate) low: usize,
    pub(crate) high: usize,
}

impl Edge {
    /// The edge between the corners with these numbers.
    #[inline(always)]
    pub(crate) fn between(a: usize, b: usize) -> Self
        ensures { result ≡ edge_of a b }
    {
        Edge {
            low: a.min(b),
            high: a.max(b),
        }
    }
}

/// An end of an edge: the number of the corner, and its row in the square, or ROWS if it has none.
#[derive(Clone, Copy, Debug)]
pub(crate) struct End {
    pub(crate) number: usize,
    pub(crate) row: usize,
}

/// Both ends of an edge, in the order in which a face goes along it.
#[derive(Clone, Copy, Debug)]
pub(crate) struct Ends {
    pub(crate) one: End,
    pub(crate) other: End,
}

impl Ends {
    /// The edge between the two ends.
    #[inline(always)]
    pub(crate) fn edge(self) -> Edge
        ensures { result ≡ edge_of self.one.number self.other.number }
    {
        Edge::between(self.one.number, self.other.number)
    }

    /// The edge in the other direction.
    #[inline(always)]
    pub(crate) fn back(self) -> Self
        ensures { result ≡ record { one = self.other; other = self.one } }
    {
        Ends {
            one: self.other,
            other: self.one,
        }
    }

    /// The edge's place in the square, where both ends have rows.
    #[inline(always)]
    pub(crate) fn place(self) -> usize
        requires { (self.one.row < 64) × (self.other.row < 64) }
        ensures place { result ≡ square_place self.one.row self.other.row }
        ensures small { result < 4096 }
    {
        self.one.row * ROWS + self.other.row
    }
}
