//! Runs on files that are too large, and within other limits.

use crate::tests::harness::End::{Done, Refused};
use crate::tests::harness::Program::{Tetgen, Within};
use crate::tests::harness::{End, Place};
use crate::tests::test_inputs::PYRAMID;
use mesh_check::append_number;
use std::alloc::Global;
use std::test::Fail;
use tet_ports::{Bytes, Name, NoMemory};

/// Appends the line of a point, each coordinate with this text behind it.
pub(crate) fn add_point(
    text: &mut Bytes,
    number: usize,
    place: [usize; 3],
    behind: &[u8],
) -> Result<(), NoMemory> {
    append_number(text, number)?;
    for coordinate in place {
        text.append(b" ")?;
        append_number(text, coordinate)?;
        text.append(behind)?;
    }
    text.append(b"\n")
}

/// `count` points of a plane that is parallel to no axis, in tenths.
fn slanted(alloc: Global, count: usize) -> Result<Bytes, NoMemory> {
    let mut text = Bytes::new(alloc);
    append_number(&mut text, count)?;
    text.append(b"\n")?;
    for n in 0..count {
        add_point(
            &mut text,
            n,
            [n / 10, n % 10, n / 10 + 2 * (n % 10)],
            b"e-1",
        )?;
    }
    Ok(text)
}

/// A line of a comment with 2^26 + 1 bytes.
fn long_comment(alloc: Global) -> Result<Bytes, NoMemory> {
    let mut text = Bytes::new(alloc);
    for _ in 0..4_194_304 {
        text.append(b"################")?;
    }
    text.append(b"#")?;
    Ok(text)
}

/// A complex with one facet of one polygon, whose corners are three points again and again.
fn wide_polygon(alloc: Global) -> Result<Bytes, NoMemory> {
    let mut text = Bytes::from_slice(alloc, b"3\n0 0 0 0\n1 1 0 0\n2 0 1 0\n1\n1\n1001")?;
    for n in 0..1_001 {
        text.append(b" ")?;
        append_number(&mut text, n % 3)?;
    }
    text.append(b"\n0\n")?;
    Ok(text)
}

/// A complex with 20,001 facets of one polygon, whose only corner is the first of four points.
fn many_facets(alloc: Global) -> Result<Bytes, NoMemory> {
    let mut text = Bytes::from_slice(alloc, b"4\n0 0 0 0\n1 1 0 0\n2 0 1 0\n3 0 0 1\n20001\n")?;
    for _ in 0..20_001 {
        text.append(b"1\n1 0\n")?;
    }
    text.append(b"0\n")?;
    Ok(text)
}

/// A file that is too large.
#[derive(Clone, Copy)]
enum Large {
    Points,
    Comment,
    Polygon,
    Facets,
}

/// The text of the file.
fn text_of(alloc: Global, large: Large) -> Result<Bytes, NoMemory> {
    match large {
        Large::Points => slanted(alloc, 20_001),
        Large::Comment => long_comment(alloc),
        Large::Polygon => wide_polygon(alloc),
        Large::Facets => many_facets(alloc),
    }
}

/// A large file, what it is called, and the message that refuses it.
type LargeFile<'a> = (Large, &'a [u8], &'a [u8]);

/// What differs where a run on this file should be refused; None where it is.
fn accepted(alloc: Global, file: LargeFile) -> Result<Option<String>, NoMemory> {
    let (large, name, message) = file;
    let mut place = Place::with_files(alloc, &[])?;
    let text = text_of(alloc, large)?;
    place.folder.add(&Name::from_slice(alloc, name)?, &text)?;
    place.run(alloc, Tetgen, &[name])?;
    place.difference(alloc, Refused(5, message), &[])
}

static LARGE: [LargeFile<'static>; 4] = [
    (
        Large::Points,
        b"t.node",
        b"tetgen: 20001 points, at most 20000\n",
    ),
    (
        Large::Comment,
        b"t.node",
        b"tetgen: t.node: over 67108864 bytes\n",
    ),
    (
        Large::Polygon,
        b"t.poly",
        b"tetgen: line 7: 1001 corners, at most 1000\n",
    ),
    (
        Large::Facets,
        b"t.poly",
        b"tetgen: 20001 facets, at most 20000\n",
    ),
];

/// What differs in the first of the files that is not refused as it is said.
fn other_large(alloc: Global) -> Result<Option<String>, NoMemory> {
    for file in LARGE {
        let found = accepted(alloc, file)?;
        if found.is_some() {
            return Ok(found);
        }
    }
    Ok(None)
}

#[test]
fn large_files_are_refused(rt: HostRuntime) -> Result<(), Fail> {
    assert_eq!(rt; other_large(rt.alloc())?, None);
    Ok(())
}

/// What there are at most, and how a run on the pyramid within these limits ends.
static LIMITED: [(usize, usize, End); 3] = [
    (5, 1000, Done),
    (4, 1000, Refused(5, b"tetgen: 5 points, at most 4\n")),
    (5, 10, Refused(5, b"tetgen: t.node: over 10 bytes\n")),
];

/// The difference from the end that a run on the pyramid within `points` points and `bytes` bytes
/// should have.
fn other_end(
    alloc: Global,
    points: usize,
    bytes: usize,
    end: End,
) -> Result<Option<String>, NoMemory> {
    let mut place = Place::with_files(alloc, &[(b"t.node", &[PYRAMID])])?;
    place.run(alloc, Within { points, bytes }, &[b"t.node"])?;
    place.difference(alloc, end, &[])
}

/// What differs within the first limits within which the run does not end as it is said.
fn other_limited(alloc: Global) -> Result<Option<String>, NoMemory> {
    for (points, bytes, end) in LIMITED {
        let found = other_end(alloc, points, bytes, end)?;
        if found.is_some() {
            return Ok(found);
        }
    }
    Ok(None)
}

#[test]
fn a_run_within_other_limits(rt: HostRuntime) -> Result<(), Fail> {
    assert_eq!(rt; other_limited(rt.alloc())?, None);
    Ok(())
}
