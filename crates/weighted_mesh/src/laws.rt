//! The laws of the regular mesh of a list.

ghost use Rattle.weighted_mesh.specs.Laws.{RegularListLaw, OneAnswerLaw};

/// The regular list of weighted points covers their hull once: a rational point off all face planes
/// of the list lies strictly inside exactly one tetrahedron where it is in the hull of all the
/// points, hidden ones included, and in none where it is beyond the hull; any two tetrahedra are
/// properly met. There is one such list. A point counts as hidden exactly where it is a corner of
/// no tetrahedron. Source: regular triangulations (Edelsbrunner and Shah 1996).
pub fn law_regular_list()
    ensures { RegularListLaw }
{}

/// A list has one answer, apart from out of memory.
pub fn law_one_answer()
    ensures { OneAnswerLaw }
{}
