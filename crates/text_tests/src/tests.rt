//! Texts and words that are read, and what is printed, on worked lines; neighbors of rows, texts of
//! small meshes, points proposed for one, and shapes of tetrahedra; reading and checking a mesh, on
//! worked rows.

mod command_line;
mod complexes;
mod far;
mod fields;
mod folders;
mod grids;
mod least_grids;
mod mesh_texts;
mod meshes;
mod neighbors;
mod point_lists;
mod proposed_points;
mod solver_texts;
mod surfaces;
mod tet_lists;
mod texts;
mod worked_shapes;
