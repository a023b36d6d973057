//! The states of a run by the undo records of its moves, of all of them or of the newest, and by clones of its machine. And runs of many
//! moves along the states of a program, also over calls, by whatever keeps them: each history has them by its single moves.
#![tactic(auto)]

mod bounded_undo_log;
mod depth_runs;
mod newest;
mod runs;
mod snapshots;
mod stepwise;
mod undo_log;
mod walk;

pub use bounded_undo_log::BoundedUndoLog;
pub use depth_runs::DepthRuns;
pub use runs::Runs;
pub use snapshots::Snapshots;
pub use stepwise::Stepwise;
pub use undo_log::UndoLog;
