//! Signs, meetings of simplices and of parts of a complex, at worked points; lists, cavities,
//! pieces, facets and tangles of small sets of points, and regular lists.
#![tactic(auto)]

#[cfg(test)]
mod tests;
