//! Reads what words ask for: the options of a mesh, and what its tetrahedra are to be like.

ghost use Rattle.std.specs.Prelude.{◌≡◌, ℕ, length, Some, None, Err, IfOk};
ghost use Rattle.command_words.specs.Meaning.{AreInRange};
ghost use Rattle.command_words.specs.declared.fault.WordsFault.TheVariants.{Usage};
ghost use Rattle.tetfit_run.specs.Words.{IsPlainRequest, IsRefinable, among_all};
ghost use Rattle.tetfit_run.specs.Words.{fit_fault, fit_wanted, halvings_for, plain_words};

use crate::check_words::name_of;
use crate::goal::{asks_region_limits, fit_goal, goal_fault};
use crate::names::all_in_small;
use crate::request::{MOST_HALVINGS, plain_words, read_options};
use crate::unit_words::{bad_word, decimals_of_unit, fit_unit, more_than_one};
use command_words::{Options, WordsFault, formats_of};
use refining::Goal;
use std::alloc::Global;
use tet_ports::{Name, Words};

/// What words ask for: the options of a mesh, and what its tetrahedra are to be like, where the
/// words bound their volume or their shape.
#[derive(Drop)]
pub struct Wanted {
    /// The name of the model as it was written: that of the file, where it is a surface.
    pub name: Name,
    pub options: Options,
    pub goal: Option<Goal>,
}

/// A fault of `count` plain words, which are the first of all; one behind the last plain word is
/// one behind all words.
fn among_all(words: &Words, count: usize, fault: WordsFault) -> WordsFault
    requires { count ≡ length (plain_words words.now) }
    ensures { (word place : ℕ) → result ≡ Usage word place
        → (inner : ℕ) × (fault ≡ Usage inner place)
        × ((word, place) ≡ among_all words.now (inner, place)) }
{
    match fault {
        WordsFault::Usage { word, place } => WordsFault::Usage {
            word: if word <= count { word } else { words.len() + 1 },
            place,
        },
        WordsFault::NoMemory => WordsFault::NoMemory,
    }
}

/// How often the grid of a model may be halved: not at all of points alone, to which no midpoint is
/// added, so that their coordinates stay small, and so do the sums of their signs; and once less
/// for second order, whose midpoints are printed with one halving more.
fn halvings_for(second_order: bool, options: &Options) -> u32
    ensures { result ≡ halvings_for second_order options.now }
{
    if !options.piecewise {
        0
    } else if second_order {
        options.halvings.min(MOST_HALVINGS - 1)
    } else {
        options.halvings
    }
}

/// The name of the model, the options and the goal that the words without `-V` ask for. A name that
/// ends with `.off` or `.stl` in letters of either case names that very file, and its options are
/// those of the name with small letters there.
///
/// `Usage` exactly where a word begins with `-a` and something else than a number above 0 with at
/// most 36 decimals is behind that, or one begins with `-q` and something else than a number from
/// 1 to 100 with at most 4 decimals is behind that, with degrees from 0 to 30 behind a slash where
/// there is one, or one begins with `--unit=` and something else than a number above 0 of at most
/// three digits and 20 decimals is behind that, with the first such word; or where the other words
/// are refused by `read_options`, with its fault; or where a bound is given for a model without
/// facets, with the first bound; or where `-Y` is given without a bound, with the first `-Y`.
pub fn read_wanted(alloc: Global, words: &Words) -> Result<Wanted, WordsFault>
    ensures understood { IfOk result (λ wanted. fit_fault words.now ≡ None) }
    ensures wanted { IfOk result (λ wanted. wanted ≡ fit_wanted words.now) }
    ensures usage { (word place : ℕ) → result ≡ Err (Usage word place)
        → fit_fault words.now ≡ Some (word, place) }
    ensures ranges { IfOk result (λ wanted. AreInRange wanted.options) }
    ensures plain { IfOk result (λ wanted. IsPlainRequest wanted.options) }
    ensures refinable { IfOk result IsRefinable }
{
    if let Some(i) = bad_word(words) {
        return Err(WordsFault::Usage {
            word: i + 1,
            place: 3,
        });
    }
    let plain = plain_words(alloc, words)?;
    let small = all_in_small(alloc, &plain)?;
    let mut options = match read_options(alloc, &small) {
        Ok(options) => options,
        Err(fault) => return Err(among_all(words, plain.len(), fault)),
    };
    options.formats = formats_of(words);
    options.halvings = halvings_for(options.formats.second_order, &options);
    options.regions = options.regions || asks_region_limits(words);
    let unit = fit_unit(words);
    options.decimals = decimals_of_unit(unit, options.decimals);
    options.unit = more_than_one(unit);
    let goal = fit_goal(words);
    if let Some((word, place)) = goal_fault(words, &goal, options.piecewise) {
        return Err(WordsFault::Usage { word, place });
    }
    Ok(Wanted {
        name: Name::from_slice(alloc, name_of(words))?,
        options,
        goal,
    })
}
