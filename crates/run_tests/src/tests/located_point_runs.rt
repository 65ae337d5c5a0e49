//! Runs that locate points in a mesh.

use crate::tests::harness::End::{Refused, Told};
use crate::tests::harness::Program::Tetwhere;
use crate::tests::harness::{File, Run, other_run};
use crate::tests::test_inputs::PYRAMID;
use std::test::Fail;

const ROWS: &[u8] = b"2 4 0\n0 0 1 3 4\n1 1 2 3 4\n";

const TURNED: &[u8] = b"2 4 0\n0 0 1 3 4\n1 2 1 3 4\n";

const QUERIES: &[u8] = b"4 3 0 0\n0 0.5 0.5 0.5\n1 1 1 1\n2 1.5 1.5 0.5\n3 5 0 0\n";

const SKIPPED: &[u8] = b"2 3 0 0\n0 0 0 0\n2 1 1 1\n";

/// A corner lies between two numbers of six decimals.
const HALVED: &[u8] = b"4 3 0 0\n0 0 0 0\n1 1.0078125 0 0\n2 0 1 0\n3 0 0 1\n";

const HALVED_ROWS: &[u8] = b"1 4 0\n0 0 1 2 3\n";

const AT_THE_CORNER: &[u8] = b"2 3 0 0\n0 1.0078125 0 0\n1 1.00781251 0 0\n";

/// Off the grid from zero: its unit is 1 / 2^8.
const FAR: &[u8] =
    b"4 3 0 0\n0 5412300 0 0\n1 5412301.00390625 0 0\n2 5412300 1 0\n3 5412300 0 1\n";

const AT_THE_FAR_CORNER: &[u8] = b"2 3 0 0\n0 5412301.00390625 0 0\n1 5412301.0039063 0 0\n";

/// The pyramid with its rows, and queries.
const HELD: [File<'static>; 3] = [
    (b"p.node", &[PYRAMID]),
    (b"p.ele", &[ROWS]),
    (b"q", &[QUERIES]),
];

static QUERIED: [Run<'static>; 9] = [
    Run {
        name: "inside, on the face between, and outside",
        held: &HELD,
        words: &[b"p", b"q"],
        end: Told(b"0 0\n1 0\n2 1\n3 -1\n"),
        files: &[],
    },
    Run {
        name: "a corner and a point beside it",
        held: &[
            (b"p.node", &[HALVED]),
            (b"p.ele", &[HALVED_ROWS]),
            (b"q", &[AT_THE_CORNER]),
        ],
        words: &[b"p", b"q"],
        end: Told(b"0 0\n1 -1\n"),
        files: &[],
    },
    Run {
        name: "a corner far from zero and a point beside it",
        held: &[
            (b"p.node", &[FAR]),
            (b"p.ele", &[HALVED_ROWS]),
            (b"q", &[AT_THE_FAR_CORNER]),
        ],
        words: &[b"p", b"q"],
        end: Told(b"0 0\n1 -1\n"),
        files: &[],
    },
    Run {
        name: "no query",
        held: &[
            (b"p.node", &[PYRAMID]),
            (b"p.ele", &[ROWS]),
            (b"q", &[b"0 3 0 0\n"]),
        ],
        words: &[b"p", b"q"],
        end: Told(b""),
        files: &[],
    },
    Run {
        name: "a row that is not positive",
        held: &[
            (b"p.node", &[PYRAMID]),
            (b"p.ele", &[TURNED]),
            (b"q", &[QUERIES]),
        ],
        words: &[b"p", b"q"],
        end: Refused(13, b"tetwhere: defect: row 1 is not positive\n"),
        files: &[],
    },
    Run {
        name: "a word too many",
        held: &HELD,
        words: &[b"p", b"q", b"r"],
        end: Refused(1, b"tetwhere: word 3, place 1: not understood\n"),
        files: &[],
    },
    Run {
        name: "a word too few",
        held: &HELD,
        words: &[b"p"],
        end: Refused(1, b"tetwhere: word 2, place 1: not understood\n"),
        files: &[],
    },
    Run {
        name: "no file",
        held: &HELD,
        words: &[b"s", b"q"],
        end: Refused(2, b"tetwhere: s.node: not found\n"),
        files: &[],
    },
    Run {
        name: "a number passed over",
        held: &[
            (b"p.node", &[PYRAMID]),
            (b"p.ele", &[ROWS]),
            (b"q", &[SKIPPED]),
        ],
        words: &[b"p", b"q"],
        end: Refused(4, b"tetwhere: q: line 3: bad number\n"),
        files: &[],
    },
];

#[test]
fn queries_over_the_pyramid(rt: HostRuntime) -> Result<(), Fail> {
    assert_eq!(rt; other_run(rt.alloc(), Tetwhere, &QUERIED)?, None);
    Ok(())
}
