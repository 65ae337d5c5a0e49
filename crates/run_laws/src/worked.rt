//! Runs on the five points of a pyramid, and on a complex with a facet that is not flat.
ghost use Rattle.run_laws.specs.Runs.{EndsDone, HasNoOthers, HasOutputs, Leaves};
ghost use Rattle.run_laws.specs.Pyramid.{complex_start, full_outputs, full_start, plain_outputs, plain_start, WritesSummary};
ghost use Rattle.run_laws.specs.Nonplanar.{ChangesNothing, EndsNotFlat, IsNonplanarRefused, TellsFacet};

/// Over a folder with the points of the pyramid, and with the name of their file alone: the texts
/// and the summary of the run, byte for byte, and no others. Without a fault and with enough
/// memory, the run ends with Done and leaves exactly these.
pub fn law_pyramid()
    ensures outputs { HasOutputs plain_start plain_outputs }
    ensures only { HasNoOthers plain_start plain_outputs }
    ensures done { EndsDone plain_start }
    ensures left { Leaves plain_start plain_outputs }
    ensures summary { WritesSummary plain_outputs }
{}

/// Over the same folder, with the words that ask for neighbors, all faces and edges: all five texts
/// and the summary, byte for byte.
pub fn law_full_pyramid()
    ensures outputs { HasOutputs full_start full_outputs }
    ensures only { HasNoOthers full_start full_outputs }
    ensures done { EndsDone full_start }
    ensures left { Leaves full_start full_outputs }
    ensures summary { WritesSummary full_outputs }
{}

/// Over a complex without facets on the points of the pyramid, with its convex hull kept: the texts
/// and the summary of the points alone.
pub fn law_complex_pyramid()
    ensures outputs { HasOutputs complex_start plain_outputs }
    ensures only { HasNoOthers complex_start plain_outputs }
    ensures done { EndsDone complex_start }
    ensures left { Leaves complex_start plain_outputs }
{}

/// Over a folder with a complex whose one facet has four corners in no plane: the run is refused
/// with that facet, where there is no fault and enough memory. No file changes, and the message
/// names the facet and the corners by the numbers of the file.
pub fn law_nonplanar()
    ensures refused { IsNonplanarRefused }
    ensures status { EndsNotFlat }
    ensures unchanged { ChangesNothing }
    ensures told { TellsFacet }
{}
