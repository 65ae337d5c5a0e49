//! The files of the worked inputs.

use crate::tests::harness::Left;

pub(crate) const SMALLEST: &[u8] = b"4 3 0 0\n1 0 0 0\n2 1 0 0\n3 0 1 0\n4 0 0 1\n";

pub(crate) const NEGATIVE: &[u8] = b"4 3 0 0\n1 0 0 0\n2 0 1 0\n3 1 0 0\n4 0 0 1\n";

pub(crate) const PYRAMID: &[u8] = b"5 3 0 0\n0 0 0 0\n1 2 0 0\n2 2 2 0\n3 0 2 0\n4 1 1 2\n";

pub(crate) const CUBE: &[u8] =
    b"8 3 0 0\n0 0 0 0\n1 1 0 0\n2 1 1 0\n3 0 1 0\n4 0 0 1\n5 1 0 1\n6 1 1 1\n7 0 1 1\n";

pub(crate) const GREATEST: &[u8] =
    b"5\n0 -8388608 -8388608 -8388608\n1 8388608 -8388608 -8388608\n2 -8388608 8388608 -8388608\n\
      3 -8388608 -8388608 8388608\n4 8388608 8388608 8388608\n";

pub(crate) const BAR_POINTS: &[u8] =
    b"# Part 1 - node list\n8 3 0 0\n1 0.0 0.0 0.0\n2 2.0 0.0 0.0\n3 2.0 2.0 0.0\n4 0.0 2.0 0.0\n\
      5 0.0 0.0 12.0\n6 2.0 0.0 12.0\n7 2.0 2.0 12.0\n8 0.0 2.0 12.0\n";

const BAR_FACETS: &[u8] =
    b"# Part 2 - facet list\n6 1\n1 0 -1   # one polygon, no hole, marker\n4 1 2 3 4\n1 0 -2\n\
      4 5 6 7 8\n1 0 0\n4 1 5 6 2\n1 0 0\n4 2 6 7 3\n1 0 0\n4 3 7 8 4\n1 0 0\n4 4 8 5 1\n\
      # Part 3 - hole list\n0\n# Part 4 - region list\n0\n";

/// A bar, in parts.
pub(crate) const BAR: &[&[u8]] = &[BAR_POINTS, BAR_FACETS];

pub(crate) const BAR_SMESH: &[u8] =
    b"8 3 0 0\n1 0.0 0.0 0.0\n2 2.0 0.0 0.0\n3 2.0 2.0 0.0\n4 0.0 2.0 0.0\n5 0.0 0.0 12.0\n\
      6 2.0 0.0 12.0\n7 2.0 2.0 12.0\n8 0.0 2.0 12.0\n6 1\n4 1 2 3 4 -1\n4 5 6 7 8 -2\n\
      4 1 5 6 2 0\n4 2 6 7 3 0\n4 3 7 8 4 0\n4 4 8 5 1 0\n";

pub(crate) const BAR_ELE: &[u8] =
    b"6 4 0\n1 1 2 4 5\n2 2 3 4 6\n3 2 4 5 6\n4 3 4 6 7\n5 4 5 6 8\n6 4 6 7 8\n";

pub(crate) const BAR_FACE: &[u8] =
    b"12 1\n1 1 2 4 -1\n2 1 2 5 0\n3 1 4 5 0\n4 2 3 4 -1\n5 2 3 6 0\n6 2 5 6 0\n7 3 4 7 0\n\
      8 3 6 7 0\n9 4 5 8 0\n10 4 7 8 0\n11 5 6 8 -2\n12 6 7 8 -2\n";

pub(crate) const BAR_NODE: &[u8] =
    b"8 3 0 0\n1 0 0 0\n2 2 0 0\n3 2 2 0\n4 0 2 0\n5 0 0 12\n6 2 0 12\n7 2 2 12\n8 0 2 12\n";

/// The files of the bar's mesh.
pub(crate) const BAR_LEFT: [Left<'static>; 3] = [
    (b"bar.1.node", Some(BAR_NODE)),
    (b"bar.1.ele", Some(BAR_ELE)),
    (b"bar.1.face", Some(BAR_FACE)),
];

pub(crate) const PRISM: &[u8] =
    b"12 3 0 0\n0 0 0 0\n1 2 0 0\n2 2 1 0\n3 1 1 0\n4 1 2 0\n5 0 2 0\n6 0 0 1\n7 2 0 1\n8 2 1 1\n\
      9 1 1 1\n10 1 2 1\n11 0 2 1\n8\n1\n6 0 1 2 3 4 5\n1\n6 6 7 8 9 10 11\n1\n4 0 1 7 6\n1\n\
      4 1 2 8 7\n1\n4 2 3 9 8\n1\n4 3 4 10 9\n1\n4 4 5 11 10\n1\n4 5 0 6 11\n";

pub(crate) const SPLIT: &[u8] =
    b"8 3 0 0\n0 -8 0 0\n1 8 0 0\n2 -4 1 0\n3 -4 -1 1\n4 -4 -1 -1\n5 4 1 0\n6 4 -1 1\n7 4 -1 -1\n\
      1\n1\n2 0 1\n";

pub(crate) const PLATE: &[u8] =
    b"5 3 0 0\n0 -9 -9 0\n1 9 -9 0\n2 0 9 0\n3 0 0 1\n4 0 0 -1\n1 1\n1 0 5\n3 0 1 2\n";

const BENT_POINTS: &[u8] =
    b"# Part 1 - node list\n8 3 0 0\n1 0.0 0.0 0.0\n2 2.0 0.0 0.0\n3 2.0 2.0 1.0\n4 0.0 2.0 0.0\n\
      5 0.0 0.0 12.0\n6 2.0 0.0 12.0\n7 2.0 2.0 12.0\n8 0.0 2.0 12.0\n";

/// The bar with a corner of its bottom lifted.
pub(crate) const BENT: &[&[u8]] = &[BENT_POINTS, BAR_FACETS];

pub(crate) const DECIMALS: &[u8] =
    b"4 3 1 1\n1 0.5 0 0 7e2 5\n2 -1.250 0 0 a 0\n3 0 3 0 b 0\n4 0 0 .5 c -1\n";

pub(crate) const WRITTEN: &[u8] =
    b"4 3 1 1\n1 0.5 0 0 7e2 5\n2 -1.25 0 0 a 0\n3 0 3 0 b 0\n4 0 0 0.5 c -1\n";

pub(crate) const THIRD: &[u8] = b"4 3 0 0\n1 0 0 0\n2 1 0 0\n3 0 1 0\n4 0 0 0.33333333333333331\n";
