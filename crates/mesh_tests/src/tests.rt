//! Signs, meetings of simplices and of parts of a complex, at worked points; lists, cavities,
//! pieces, facets and tangles of small sets of points, and regular lists.

mod complex_parts;
mod delaunay_lists;
mod far_spheres;
mod pieces;
mod protection;
mod regions;
mod regular_lists;
mod signs;
mod simplex_places;
mod simplices;
mod slots;
mod small_sets;
mod surgery;
mod tangles;
mod walks;
mod weighted_lists;
mod wide;
