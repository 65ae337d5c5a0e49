//! Words of the command line with what they ask for, or where they are against the grammar.

use command_words::*;
use std::alloc::Global;
use tet_ports::{Name, NoMemory, Words};

/// These words as the program gets them.
fn words_of(alloc: Global, words: &[&[u8]]) -> Result<Words, NoMemory> {
    let mut named = Words::new(alloc);
    for word in words {
        named.push(Name::from_slice(alloc, word)?)?;
    }
    Ok(named)
}

/// Words that are against the grammar, with the bad word and the place in it.
struct Faulty {
    name: &'static str,
    words: &'static [&'static [u8]],
    word: usize,
    place: usize,
}

/// Whether the words of a case are refused so.
fn is_refused(alloc: Global, case: &Faulty) -> bool {
    let (word, place) = (case.word, case.place);
    match words_of(alloc, case.words) {
        Ok(words) => { read_words(alloc, &words).err() == Some(WordsFault::Usage { word, place }) }
        Err(NoMemory) => false,
    }
}

static FAULTY: [Faulty; 8] = [
    Faulty {
        name: "no word",
        words: &[],
        word: 1,
        place: 1,
    },
    Faulty {
        name: "S before a letter",
        words: &[b"-Sp7", b"t"],
        word: 1,
        place: 3,
    },
    Faulty {
        name: "S out of its range",
        words: &[b"-pS100001", b"t"],
        word: 1,
        place: 4,
    },
    Faulty {
        name: "halvings out of range",
        words: &[b"--halvings=13", b"t"],
        word: 1,
        place: 12,
    },
    Faulty {
        name: "a sample out of range",
        words: &[b"--sample=10001"],
        word: 1,
        place: 10,
    },
    Faulty {
        name: "no name",
        words: &[b"-nQ"],
        word: 2,
        place: 1,
    },
    Faulty {
        name: "two bad words",
        words: &[b"t", b"-x", b""],
        word: 2,
        place: 2,
    },
    Faulty {
        name: "weights of a mesh that is read",
        words: &[b"-rwC", b"t"],
        word: 3,
        place: 2,
    },
];

#[test]
fn faulty_words(rt: HostRuntime) {
    for case in &FAULTY {
        assert!(rt; is_refused(rt.alloc(), case), "{}", case.name);
    }
}

/// What is asked for, in part.
#[derive(Clone, Copy, PartialEq, Eq)]
struct Asked<'a> {
    piecewise: bool,
    from_zero: bool,
    keep_hull: bool,
    keep_facets: bool,
    weighted: bool,
    budget: u32,
    halvings: u32,
    decimals: Option<u32>,
    sample: Option<u32>,
    base: &'a [u8],
    extension: Option<Extension>,
}

/// What a base alone asks for.
const PLAIN: Asked<'static> = Asked {
    piecewise: false,
    from_zero: false,
    keep_hull: false,
    keep_facets: false,
    weighted: false,
    budget: 100_000,
    halvings: 12,
    decimals: None,
    sample: None,
    base: b"name",
    extension: None,
};

/// Words, and what they ask for.
struct Asking {
    name: &'static str,
    words: &'static [&'static [u8]],
    asked: Asked<'static>,
}

static ASKING: [Asking; 5] = [
    Asking {
        name: "a cluster",
        words: &[b"-pS100nzM", b"name"],
        asked: Asked {
            piecewise: true,
            from_zero: true,
            keep_facets: true,
            budget: 100,
            ..PLAIN
        },
    },
    Asking {
        name: "the last numbers",
        words: &[
            b"-S5S7",
            b"name",
            b"--halvings=3",
            b"-cS000000020c",
            b"--halvings=012",
        ],
        asked: Asked {
            keep_hull: true,
            budget: 20,
            ..PLAIN
        },
    },
    Asking {
        name: "the ends of the ranges",
        words: &[b"-S100000", b"--halvings=0", b"--decimals=20", b"name"],
        asked: Asked {
            halvings: 0,
            decimals: Some(20),
            ..PLAIN
        },
    },
    Asking {
        name: "points with weights",
        words: &[b"-cw", b"name.node"],
        asked: Asked {
            keep_hull: true,
            weighted: true,
            extension: Some(Extension::Node),
            ..PLAIN
        },
    },
    Asking {
        name: "the sample",
        words: &[b"--sample=3", b"--sample=10000", b"-c"],
        asked: Asked {
            piecewise: true,
            keep_hull: true,
            sample: Some(10_000),
            base: b"",
            ..PLAIN
        },
    },
];

/// What the options ask for.
fn asked_of(options: &Options) -> Asked<'_> {
    Asked {
        piecewise: options.piecewise,
        from_zero: options.from_zero,
        keep_hull: options.keep_hull,
        keep_facets: options.keep_facets,
        weighted: options.weighted,
        budget: options.budget,
        halvings: options.halvings,
        decimals: options.decimals,
        sample: options.sample,
        base: options.base.as_slice(),
        extension: options.extension,
    }
}

/// Whether these words ask for this.
fn are_asking(alloc: Global, words: &Words, asked: &Asked<'_>) -> bool {
    match read_words(alloc, words) {
        Ok(options) => asked_of(&options) == *asked,
        Err(_) => false,
    }
}

/// Whether the words of a case ask for what it says.
fn asks(alloc: Global, case: &Asking) -> bool {
    match words_of(alloc, case.words) {
        Ok(words) => are_asking(alloc, &words, &case.asked),
        Err(NoMemory) => false,
    }
}

/// Whether a file is named by the base of a name and an extension.
fn is_named(alloc: Global) -> Result<bool, NoMemory> {
    let base = Name::from_slice(alloc, base_of(b"a.b.smesh"))?;
    let name = file_name(alloc, &base, Extension::Poly)?;
    Ok(name.as_slice() == b"a.b.poly".as_slice())
}

#[test]
fn words_are_read(rt: HostRuntime) {
    assert!(rt; is_named(rt.alloc()) == Ok(true));
    for case in &ASKING {
        assert!(rt; asks(rt.alloc(), case), "{}", case.name);
    }
}
