//! Which runs on points are done.
ghost use Rattle.run_laws.specs.Complete.{PointsCompleteLaw, WeightsCompleteLaw};

/// A run on a file of points that are not all in one plane, within its limits, whatever they are,
/// is done, where nothing fails and memory does not run out.
pub fn law_points_complete()
    ensures { PointsCompleteLaw }
{}

/// So is a run on such a file whose points have weights, by words that ask for weighted points.
pub fn law_weights_complete()
    ensures { WeightsCompleteLaw }
{}
