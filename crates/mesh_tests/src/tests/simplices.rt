use crate::tests::simplex_places::{face, places, side};
use geo_laws::{Face, Points, Side};
use simplex_meets::{
    face_met_segment, faces_met, is_segment, is_triangle, segment_met_face, segments_met,
};
use std::test::Fail;

fn two_sides(points: &Points, s: Side, t: Side) -> Option<bool> {
    if is_segment(points, s) && is_segment(points, t) {
        Some(segments_met(points, s, t))
    } else {
        None
    }
}

fn side_and_face(points: &Points, s: Side, f: Face) -> Option<bool> {
    if is_segment(points, s) && is_triangle(points, f) {
        if segment_met_face(points, s, f) == face_met_segment(points, f, s) {
            Some(segment_met_face(points, s, f))
        } else {
            None
        }
    } else {
        None
    }
}

fn two_faces(points: &Points, f: Face, g: Face) -> Option<bool> {
    if is_triangle(points, f) && is_triangle(points, g) {
        Some(faces_met(points, f, g))
    } else {
        None
    }
}

static SEGMENTS: [([u32; 2], [u32; 2], Option<bool>); 7] = [
    ([0, 1], [2, 3], Some(true)),
    ([0, 2], [1, 3], Some(false)),
    ([0, 2], [2, 3], Some(true)),
    ([0, 2], [0, 4], Some(false)),
    ([0, 2], [2, 0], Some(true)),
    ([0, 4], [4, 2], Some(true)),
    ([0, 0], [4, 2], None),
];

#[test]
fn segments(rt: HostRuntime) -> Result<(), Fail> {
    let points = places(rt.alloc())?;
    for (s, t, want) in &SEGMENTS {
        assert_eq!(rt;
            two_sides(&points, side(*s), side(*t)),
            *want,
            "{s:?} and {t:?}"
        );
    }
    Ok(())
}

static SEGMENTS_AND_TRIANGLES: [([u32; 2], [u32; 3], Option<bool>); 8] = [
    ([4, 5], [0, 1, 2], Some(false)),
    ([4, 5], [0, 1, 4], Some(true)),
    ([2, 6], [0, 1, 2], Some(true)),
    ([0, 6], [0, 1, 2], Some(false)),
    ([0, 1], [0, 1, 2], Some(true)),
    ([3, 1], [0, 1, 2], Some(false)),
    ([3, 5], [0, 1, 2], Some(true)),
    ([3, 5], [0, 2, 4], None),
];

#[test]
fn segments_and_triangles(rt: HostRuntime) -> Result<(), Fail> {
    let points = places(rt.alloc())?;
    for (s, f, want) in &SEGMENTS_AND_TRIANGLES {
        assert_eq!(rt;
            side_and_face(&points, side(*s), face(*f)),
            *want,
            "{s:?} and {f:?}"
        );
    }
    Ok(())
}

static TRIANGLES: [([u32; 3], [u32; 3], Option<bool>); 8] = [
    ([0, 1, 2], [0, 2, 3], Some(true)),
    ([0, 1, 2], [0, 1, 3], Some(false)),
    ([0, 1, 2], [0, 1, 5], Some(true)),
    ([0, 1, 2], [3, 4, 5], Some(false)),
    ([0, 1, 4], [2, 3, 4], Some(true)),
    ([0, 1, 2], [0, 6, 5], Some(false)),
    ([0, 1, 2], [2, 0, 1], Some(true)),
    ([0, 1, 4], [2, 3, 5], Some(true)),
];

#[test]
fn triangles(rt: HostRuntime) -> Result<(), Fail> {
    let points = places(rt.alloc())?;
    for (f, g, want) in &TRIANGLES {
        assert_eq!(rt;
            two_faces(&points, face(*f), face(*g)),
            *want,
            "{f:?} and {g:?}"
        );
    }
    Ok(())
}
