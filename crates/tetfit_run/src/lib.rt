//! The program `tetfit`, which meshes models as they are found: its words and its page, the finest
//! rounding of a model at which the grid does not refuse it, the message on a refusal, and the run
//! over a folder and two streams.
#![tactic(auto)]

mod apart;
mod check_words;
mod checks;
mod conforming;
mod coordinates;
mod copies;
mod facets;
mod fitting;
mod goal;
mod grids;
mod hints;
mod holes;
mod keyword;
mod kinds;
mod limits;
mod messages;
mod model;
mod names;
mod opening;
mod outputs;
mod page;
mod placed;
mod places;
mod reason;
mod refined;
mod request;
mod rounded;
mod run;
mod sides;
mod stages;
mod told;
mod trial;
mod trying;
mod unit_texts;
mod unit_words;
mod units;
mod wanted;
mod wholes;

pub use run::run_fit;
