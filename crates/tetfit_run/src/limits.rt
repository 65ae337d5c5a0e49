//! The limits of the program.

ghost use Rattle.std.specs.Prelude.{◌≡◌};
ghost use Rattle.node_files.specs.Limits.{AreIndexable};
ghost use Rattle.tetfit_run.specs.Outputs.{fit_limits};

use node_files::Limits;

/// The limits of `tetfit`: 2^30 bytes of a file, 4,000,000 points and facets, 1,000,000 corners of
/// a polygon, and coordinates up to 2^29 in size.
pub(crate) fn fit_limits() -> Limits
    ensures values { result ≡ fit_limits }
    ensures indexable { AreIndexable result }
{
    Limits {
        bytes: 1_073_741_824,
        points: 4_000_000,
        facets: 4_000_000,
        corners: 1_000_000,
        grid: 536_870_912,
    }
}
