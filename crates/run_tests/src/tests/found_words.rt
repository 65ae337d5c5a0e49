//! Words of the program for models as they are found that ask for no mesh, or are not understood.

use crate::tests::harness::End::{Done, Refused, Told};
use crate::tests::harness::Program::Tetfit;
use crate::tests::harness::{Run, other_run};
use std::test::Fail;

static TOLD: [Run<'static>; 12] = [
    Run {
        name: "the version",
        held: &[],
        words: &[b"--version"],
        end: Told(b"tetfit 1.0\n"),
        files: &[],
    },
    Run {
        name: "the page, with no stage",
        held: &[],
        words: &[b"-V", b"-h"],
        end: Done,
        files: &[],
    },
    Run {
        name: "a letter of tetgen's manual",
        held: &[],
        words: &[b"-pq1.4", b"x"],
        end: Refused(
            1,
            b"tetfit: -pq1.4: q: a ratio is a word of its own, as -q1.4\n",
        ),
        files: &[],
    },
    Run {
        name: "weights",
        held: &[],
        words: &[b"x.node", b"-nw"],
        end: Refused(
            1,
            b"tetfit: -nw: w: points with weights are meshed by tetgen -w\n",
        ),
        files: &[],
    },
    Run {
        name: "weights of a surface",
        held: &[],
        words: &[b"-w", b"part.stl"],
        end: Refused(
            1,
            b"tetfit: -w: w: points with weights are meshed by tetgen -w\n",
        ),
        files: &[],
    },
    Run {
        name: "a check with a letter short",
        held: &[],
        words: &[b"-r", b"part"],
        end: Refused(
            1,
            b"tetfit: -r: r: a mesh is checked by -rC, a word of its own\n",
        ),
        files: &[],
    },
    Run {
        name: "the sample and a name",
        held: &[],
        words: &[b"--sample=3", b"part.stl"],
        end: Refused(1, b"tetfit: --sample=3: the sample is meshed by tetgen\n"),
        files: &[],
    },
    Run {
        name: "too many decimals",
        held: &[],
        words: &[b"--decimals=21", b"x"],
        end: Refused(
            1,
            b"tetfit: --decimals=21: a number within its limit is wanted\n",
        ),
        files: &[],
    },
    Run {
        name: "a unit of four digits",
        held: &[],
        words: &[b"--unit=0.1234", b"x.off"],
        end: Refused(
            1,
            b"tetfit: --unit=0.1234: \
              a unit above 0 with at most 3 digits and 20 decimals is wanted\n",
        ),
        files: &[],
    },
    Run {
        name: "no name",
        held: &[],
        words: &[b"-p"],
        end: Refused(1, b"tetfit: the name of a file is wanted\n"),
        files: &[],
    },
    Run {
        name: "no number",
        held: &[],
        words: &[b"-S", b"x"],
        end: Refused(1, b"tetfit: -S: a number within its limit is wanted\n"),
        files: &[],
    },
    Run {
        name: "a letter that is not known",
        held: &[],
        words: &[b"-b", b"x"],
        end: Refused(1, b"tetfit: -b: b: a letter that is not known\n"),
        files: &[],
    },
];

#[test]
fn words_of_models(rt: HostRuntime) -> Result<(), Fail> {
    assert_eq!(rt; other_run(rt.alloc(), Tetfit, &TOLD)?, None);
    Ok(())
}
