//! What programs mean: states, one step, the start, pokes, the timeline that a session moves along, and where it stops.
//! The definitions stand in specs/; the functions here are laws about them, with nothing to run.
#![tactic(auto)]

mod laws;
mod reason;
mod start;
mod stops;
mod timeline;

pub use laws::{
    call_faults_in_order, dead_byte_comes_before_full_output, fault_changes_status,
    final_states_stay, output_is_bounded, phis_swap, text_is_up_to_zero,
};
pub use qil_memory::{FuncId, Image};
pub use reason::Reason;
pub use start::StartFault;
pub use stops::{
    bounds_stay, one_target, runs_back_to_target, runs_on_to_target, targets_are_reached,
};
pub use timeline::{
    back_undoes_forward, bounded_is_kept_end, moves_add_one, moves_are_counted, newest_are_kept,
};
