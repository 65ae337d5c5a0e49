//! Runs over a folder and streams in memory.

use crate::tests::harness::End::{Cut, Done, Refused, Told};
use crate::tests::harness::Program::Tetgen;
use crate::tests::harness::{Place, Run, in_case, other_run};
use crate::tests::test_inputs::{
    BAR, BAR_ELE, BAR_FACE, BAR_LEFT, BAR_NODE, BAR_POINTS, BAR_SMESH, CUBE, DECIMALS, GREATEST,
    NEGATIVE, PYRAMID, SMALLEST, THIRD, WRITTEN,
};
use std::alloc::Global;
use std::test::Fail;
use tet_ports::NoMemory;

static POINTS: [Run<'static>; 5] = [
    Run {
        name: "smallest",
        held: &[(b"t.node", &[SMALLEST])],
        words: &[b"-n", b"t"],
        end: Told(b"points 4 added 0 tetrahedra 1 faces 4 edges 6\n"),
        files: &[
            (b"t.1.ele", Some(b"1 4 0\n1 1 2 3 4\n")),
            (b"t.1.neigh", Some(b"1 4\n1 -1 -1 -1 -1\n")),
            (b"t.1.edge", None),
            (b"t.node", Some(SMALLEST)),
        ],
    },
    Run {
        name: "negative order",
        held: &[(b"t.node", &[NEGATIVE])],
        words: &[b"-n", b"t"],
        end: Done,
        files: &[(b"t.1.ele", Some(b"1 4 0\n1 1 2 4 3\n"))],
    },
    Run {
        name: "pyramid",
        held: &[(b"t.node", &[PYRAMID])],
        words: &[b"-nf", b"t"],
        end: Told(b"points 5 added 0 tetrahedra 2 faces 7 edges 9\n"),
        files: &[
            (b"t.1.ele", Some(b"2 4 0\n0 0 1 3 4\n1 1 2 3 4\n")),
            (b"t.1.neigh", Some(b"2 4\n0 1 -1 -1 -1\n1 -1 0 -1 -1\n")),
            (
                b"t.1.face",
                Some(
                    b"7 1\n0 0 1 3 1\n1 0 1 4 1\n2 0 3 4 1\n3 1 2 3 1\n4 1 2 4 1\n5 1 3 4 0\n\
                      6 2 3 4 1\n",
                ),
            ),
        ],
    },
    Run {
        name: "cube",
        held: &[(b"t.node", &[CUBE])],
        words: &[b"-n", b"t"],
        end: Told(b"points 8 added 0 tetrahedra 6 faces 18 edges 19\n"),
        files: &[
            (
                b"t.1.ele",
                Some(b"6 4 0\n0 0 1 3 4\n1 1 2 3 5\n2 1 3 4 5\n3 2 3 5 6\n4 3 4 5 7\n5 3 5 6 7\n"),
            ),
            (
                b"t.1.neigh",
                Some(
                    b"6 4\n0 2 -1 -1 -1\n1 3 2 -1 -1\n2 4 -1 1 0\n3 5 -1 -1 1\n4 -1 5 -1 2\n\
                      5 -1 -1 4 3\n",
                ),
            ),
        ],
    },
    Run {
        name: "greatest coordinates",
        held: &[(b"t.node", &[GREATEST])],
        words: &[b"t"],
        end: Told(b"points 5 added 0 tetrahedra 2 faces 7 edges 9\n"),
        files: &[(b"t.1.ele", Some(b"2 4 0\n0 0 1 2 3\n1 1 2 3 4\n"))],
    },
];

#[test]
fn points_are_meshed(rt: HostRuntime) -> Result<(), Fail> {
    assert_eq!(rt; other_run(rt.alloc(), Tetgen, &POINTS)?, None);
    Ok(())
}

static SWITCHES: [Run<'static>; 3] = [
    Run {
        name: "quiet, with no rows",
        held: &[(b"t.node", &[PYRAMID])],
        words: &[b"-fQ", b"t", b"-E"],
        end: Told(b""),
        files: &[(b"t.1.ele", None), (b"t.1.neigh", None)],
    },
    Run {
        name: "edges from 0",
        held: &[(b"t.node", &[SMALLEST])],
        words: &[b"-ez", b"t"],
        end: Done,
        files: &[
            (
                b"t.1.edge",
                Some(b"6 0\n0 0 1\n1 0 2\n2 0 3\n3 1 2\n4 1 3\n5 2 3\n"),
            ),
            (b"t.1.ele", Some(b"1 4 0\n0 0 1 2 3\n")),
        ],
    },
    Run {
        name: "no faces and no edges",
        held: &[(b"t.node", &[SMALLEST])],
        words: &[b"-eFnN", b"t"],
        end: Done,
        files: &[
            (b"t.1.face", None),
            (b"t.1.edge", None),
            (b"t.1.node", None),
            (b"t.1.neigh", Some(b"1 4\n1 -1 -1 -1 -1\n")),
        ],
    },
];

#[test]
fn switches_choose_the_files(rt: HostRuntime) -> Result<(), Fail> {
    assert_eq!(rt; other_run(rt.alloc(), Tetgen, &SWITCHES)?, None);
    Ok(())
}

static REFUSALS: [Run<'static>; 12] = [
    Run {
        name: "no word",
        held: &[],
        words: &[],
        end: Refused(1, b"tetgen: word 1, place 1: not understood\n"),
        files: &[],
    },
    Run {
        name: "a sample of too many points",
        held: &[],
        words: &[b"--sample=10001"],
        end: Refused(1, b"tetgen: word 1, place 10: not understood\n"),
        files: &[],
    },
    Run {
        name: "a sample and a name",
        held: &[(b"t.node", &[PYRAMID])],
        words: &[b"t", b"--sample=5"],
        end: Refused(1, b"tetgen: word 3, place 1: not understood\n"),
        files: &[],
    },
    Run {
        name: "no file",
        held: &[(b"s.node", &[PYRAMID])],
        words: &[b"t"],
        end: Refused(2, b"tetgen: t.node: not found\n"),
        files: &[],
    },
    Run {
        name: "no complex",
        held: &[(b"t.node", &[PYRAMID])],
        words: &[b"-p", b"t"],
        end: Refused(2, b"tetgen: t.smesh: not found\n"),
        files: &[],
    },
    Run {
        name: "no second file",
        held: &[(b"q.poly", &[b"0 3 0 0\n0\n"])],
        words: &[b"-p", b"q"],
        end: Refused(2, b"tetgen: q.node: not found\n"),
        files: &[],
    },
    Run {
        name: "empty",
        held: &[(b"t.node", &[b""])],
        words: &[b"t"],
        end: Refused(4, b"tetgen: t.node: line 1: too few\n"),
        files: &[],
    },
    Run {
        name: "cut off",
        held: &[(
            b"bar.poly",
            &[
                BAR_POINTS,
                b"# Part 2 - facet list\n6 1\n1 0 -1   # one polygon, no hole, marker\n4 1 2 3 4\n\
                  1 0 -2\n4 5 6 7 8\n",
            ],
        )],
        words: &[b"-p", b"bar"],
        end: Refused(4, b"tetgen: bar.poly: line 17: too few\n"),
        files: &[],
    },
    Run {
        name: "a corner that is no point",
        held: &[(
            b"bar.poly",
            &[
                BAR_POINTS,
                b"# Part 2 - facet list\n6 1\n1 0 -1   # one polygon, no hole, marker\n4 1 2 3 9\n\
                  1 0 -2\n4 5 6 7 8\n1 0 0\n4 1 5 6 2\n1 0 0\n4 2 6 7 3\n1 0 0\n4 3 7 8 4\n1 0 0\n\
                  4 4 8 5 1\n# Part 3 - hole list\n0\n# Part 4 - region list\n0\n",
            ],
        )],
        words: &[b"-p", b"bar"],
        end: Refused(4, b"tetgen: bar.poly: line 14: bad number\n"),
        files: &[],
    },
    Run {
        name: "off the grid",
        held: &[(b"t.node", &[THIRD])],
        words: &[b"t"],
        end: Refused(5, b"tetgen: line 3: coordinate off the grid\n"),
        files: &[(b"t.1.node", None)],
    },
    Run {
        name: "one beyond the greatest coordinate",
        held: &[(
            b"t.node",
            &[
                b"5\n0 -8388608 -8388608 -8388608\n1 8388609 -8388608 -8388608\n\
                  2 -8388608 8388608 -8388608\n3 -8388608 -8388608 8388608\n\
                  4 8388608 8388608 8388608\n",
            ],
        )],
        words: &[b"t"],
        end: Refused(5, b"tetgen: line 3: coordinate off the grid\n"),
        files: &[(b"t.1.node", None)],
    },
    Run {
        name: "points of a plane",
        held: &[(b"t.node", &[b"3\n1 0 0 0\n2 1 0 0\n3 0 1 0\n"])],
        words: &[b"t"],
        end: Refused(6, b"tetgen: all points lie in one plane\n"),
        files: &[],
    },
];

#[test]
fn files_are_refused(rt: HostRuntime) -> Result<(), Fail> {
    assert_eq!(rt; other_run(rt.alloc(), Tetgen, &REFUSALS)?, None);
    Ok(())
}

static WRITTEN_BACK: [Run<'static>; 4] = [
    Run {
        name: "attributes and markers",
        held: &[(b"d.node", &[DECIMALS])],
        words: &[b"d"],
        end: Done,
        files: &[
            (b"d.1.node", Some(WRITTEN)),
            (b"d.1.ele", Some(b"1 4 0\n1 1 2 4 3\n")),
        ],
    },
    Run {
        name: "what was written",
        held: &[(b"d.1.node", &[WRITTEN])],
        words: &[b"d.1"],
        end: Done,
        files: &[(b"d.1.1.node", Some(WRITTEN))],
    },
    Run {
        name: "rounded",
        held: &[(b"t.node", &[THIRD])],
        words: &[b"t", b"--decimals=3"],
        end: Done,
        files: &[(
            b"t.1.node",
            Some(b"4 3 0 0\n1 0 0 0\n2 1 0 0\n3 0 1 0\n4 0 0 0.333\n"),
        )],
    },
    Run {
        name: "rounded to a point that is there",
        held: &[(b"t.node", &[THIRD])],
        words: &[b"--decimals=3", b"t", b"--decimals=0"],
        end: Refused(6, b"tetgen: all points lie in one plane\n"),
        files: &[],
    },
];

#[test]
fn decimals_are_written_back(rt: HostRuntime) -> Result<(), Fail> {
    assert_eq!(rt; other_run(rt.alloc(), Tetgen, &WRITTEN_BACK)?, None);
    Ok(())
}

/// What fails in a run: the nth fetch, the nth store or the first put to a stream, with this many
/// bytes kept.
#[derive(Clone, Copy)]
enum Failing {
    Fetch { nth: u32 },
    Store { nth: u32, kept: usize },
    Summary { kept: usize },
    Message { kept: usize },
}

impl Place {
    fn fail(&mut self, call: Failing) {
        match call {
            Failing::Fetch { nth } => self.folder.fail_fetch(nth),
            Failing::Store { nth, kept } => self.folder.fail_store(nth, kept),
            Failing::Summary { kept } => self.out.fail_put(1, kept),
            Failing::Message { kept } => self.err.fail_put(1, kept),
        }
    }
}

/// A run in which a call fails.
#[derive(Clone, Copy)]
struct Failure<'a> {
    call: Failing,
    run: Run<'a>,
}

/// What differs from what is said of a run in which a call fails; None where nothing does.
fn difference_after(alloc: Global, failure: &Failure) -> Result<Option<String>, NoMemory> {
    let run = failure.run;
    let mut place = Place::with_files(alloc, run.held)?;
    place.fail(failure.call);
    place.run(alloc, Tetgen, run.words)?;
    place.difference(alloc, run.end, run.files)
}

/// The name of the first of these that is not as it is said, and what differs.
fn other_failure(alloc: Global, failures: &[Failure]) -> Result<Option<String>, NoMemory> {
    for failure in failures {
        if let Some(found) = difference_after(alloc, failure)? {
            return Ok(Some(in_case(alloc, failure.run.name, found.as_str())?));
        }
    }
    Ok(None)
}

static FAILURES: [Failure<'static>; 9] = [
    Failure {
        call: Failing::Fetch { nth: 1 },
        run: Run {
            name: "first fetch",
            held: &[(b"bar.poly", BAR)],
            words: &[b"-p", b"bar"],
            end: Refused(3, b"tetgen: bar.poly: read failed\n"),
            files: &[(b"bar.1.node", None)],
        },
    },
    Failure {
        call: Failing::Fetch { nth: 2 },
        run: Run {
            name: "second fetch",
            held: &[(b"bar.smesh", &[BAR_SMESH])],
            words: &[b"-p", b"bar"],
            end: Refused(3, b"tetgen: bar.smesh: read failed\n"),
            files: &[(b"bar.1.node", None)],
        },
    },
    Failure {
        call: Failing::Store { nth: 1, kept: 0 },
        run: Run {
            name: "first store",
            held: &[(b"bar.poly", BAR)],
            words: &[b"-p", b"bar"],
            end: Refused(11, b"tetgen: bar.1.node: write failed\n"),
            files: &[(b"bar.1.node", Some(b"")), (b"bar.1.ele", None)],
        },
    },
    Failure {
        call: Failing::Fetch { nth: 2 },
        run: Run {
            name: "second file",
            held: &[(b"q.poly", &[b"0 3 0 0\n0\n"]), (b"q.node", &[SMALLEST])],
            words: &[b"-p", b"q"],
            end: Refused(3, b"tetgen: q.node: read failed\n"),
            files: &[(b"q.1.node", None)],
        },
    },
    Failure {
        call: Failing::Store { nth: 2, kept: 3 },
        run: Run {
            name: "second store",
            held: &[(b"bar.poly", BAR)],
            words: &[b"-p", b"bar"],
            end: Refused(11, b"tetgen: bar.1.ele: write failed\n"),
            files: &[
                (b"bar.1.node", Some(BAR_NODE)),
                (b"bar.1.ele", Some(b"6 4")),
                (b"bar.1.face", None),
            ],
        },
    },
    Failure {
        call: Failing::Store { nth: 3, kept: 5 },
        run: Run {
            name: "third store",
            held: &[(b"bar.poly", BAR)],
            words: &[b"-p", b"bar"],
            end: Refused(11, b"tetgen: bar.1.face: write failed\n"),
            files: &[
                (b"bar.1.node", Some(BAR_NODE)),
                (b"bar.1.ele", Some(BAR_ELE)),
                (b"bar.1.face", Some(b"12 1\n")),
            ],
        },
    },
    Failure {
        call: Failing::Store { nth: 3, kept: 1000 },
        run: Run {
            name: "a store that keeps all",
            held: &[(b"bar.poly", BAR)],
            words: &[b"-p", b"bar"],
            end: Refused(11, b"tetgen: bar.1.face: write failed\n"),
            files: &BAR_LEFT,
        },
    },
    Failure {
        call: Failing::Summary { kept: 6 },
        run: Run {
            name: "summary",
            held: &[(b"bar.poly", BAR)],
            words: &[b"-p", b"bar"],
            end: Cut(11, b"points", b"tetgen: summary: write failed\n"),
            files: &[(b"bar.1.face", Some(BAR_FACE))],
        },
    },
    Failure {
        call: Failing::Message { kept: 7 },
        run: Run {
            name: "message",
            held: &[],
            words: &[b"-y", b"name"],
            end: Refused(1, b"tetgen:"),
            files: &[],
        },
    },
];

#[test]
fn failing_calls_are_told(rt: HostRuntime) -> Result<(), Fail> {
    assert_eq!(rt; other_failure(rt.alloc(), &FAILURES)?, None);
    Ok(())
}
