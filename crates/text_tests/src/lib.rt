//! Texts and words that are read, and what is printed, on worked lines; neighbors of rows, texts of
//! small meshes, points proposed for one, and shapes of tetrahedra; reading and checking a mesh, on
//! worked rows.
#![tactic(auto)]

#[cfg(test)]
mod tests;
