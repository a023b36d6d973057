//! From two texts and a script to what is told of where their runs part, and the answers to the script there.
//!
//! `qil_compare` finds the place; here the texts are loaded, the answer is put, and a script is served on one side.
//! `specs/Compared.antt` says what is written.
#![tactic(auto)]

mod comparing;
mod event_text;
mod flat_run;
mod loading;
mod outcome;
mod refusal;
mod request;
mod serving;
mod sessions;
mod sides;
mod telling;

pub use comparing::compare_texts;
pub use outcome::Outcome;
pub use qil_compare::{Kinds, Verdict};
pub use request::{Request, SideName, Text};
