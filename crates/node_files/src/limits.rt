//! The limits of an input.

ghost use Rattle.std.specs.Prelude.{◌≡◌};
ghost use Rattle.node_files.specs.Limits.{tetgen_limits, AreIndexable};

/// The limits of an input; one that is over a limit is refused.
#[derive(Clone, Copy, Debug, PartialEq, Eq)]
pub struct Limits {
    /// The bytes of a file.
    pub bytes: usize,
    /// The points of the input, without added ones.
    pub points: usize,
    /// The facets.
    pub facets: usize,
    /// The corners of a polygon.
    pub corners: usize,
    /// The greatest size of a coordinate, in grid units.
    pub grid: u64,
}

impl Limits {
    /// The limits of the program `tetgen`: 2^26 bytes, 20,000 points and facets, 1,000
    /// corners, and coordinates up to 2^23 in size.
    pub fn tetgen() -> Limits
        ensures values { result ≡ tetgen_limits }
        ensures indexable { AreIndexable result }
    {
        Limits {
            bytes: 67_108_864,
            points: 20_000,
            facets: 20_000,
            corners: 1000,
            grid: 8_388_608,
        }
    }
}
