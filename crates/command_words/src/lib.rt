//! The words of the command line: their grammar, their first fault, and what they ask for.
#![tactic(auto)]

mod budget;
mod fault;
mod first_fault;
mod formats;
mod grammar;
mod laws;
mod names;
mod numbers;
mod options;

pub use fault::WordsFault;
pub use formats::{Format, Formats, formats_of, is_format};
pub use grammar::{has_word, is_word};
pub use laws::law_switches;
pub use names::{base_of, file_name, with_extension};
pub use options::{Extension, Options, read_words, read_words_within};
