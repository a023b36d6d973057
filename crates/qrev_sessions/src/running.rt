//! Runs over calls of a session over any history.
//!
//! One function runs each way: that a history is one is compared at each call at which it is known, and that is dear.

ghost use Rattle.std.specs.Prelude.{◌≡◌, ◌^◌, ◌<◌, ◌≤◌, Bool, true};
ghost use Rattle.qil_session.specs.Kept.{session_state};
ghost use Rattle.qil_semantics.specs.Timeline.{position};
ghost use Rattle.qrev_sessions.specs.Ways.{RunsBy};
ghost use Rattle.qrev_sessions.specs.declared.running.Way.TheVariants.{Forward};

use qil_history::History;
use qil_machine::{Code, Machine};
use qil_session::{DepthRuns, Session, Stepwise};
use qil_stops::{DepthEnd, Stops};
use std::alloc::Allocator;

/// Which way a session runs, and where it stops: at its own stops or at these.
pub enum Way<'s, A: Allocator> {
    Forward,
    Back,
    BackPast(&'s Stops<A>),
}

/// As `Session::run_to_depth`, `Session::run_back_to_depth` or `Session::run_back_past`. `_code` is of a type that names the lifetime
/// of the code, if that of the session doesn't.
pub fn run_over<'c, A: Allocator + Copy + 'c, H: DepthRuns<A, Code<'c, A>>, K>(
    session: &mut Session<A, H>,
    _code: Option<&K>,
    way: Way<'_, A>,
    most: usize,
) -> (DepthEnd, u64)
    requires before { way ≡ Forward → position (H.timeline session.old.history) < 2 ^ 61 }
    requires limit { way ≡ Forward → session.old.limit ≤ 4294967295 }
    ensures rest { (wants : Bool) → session_state wants H.program H.timeline session.new ≡ record (session_state wants H.program H.timeline session.old) { timeline = H.timeline session.new.history } }
    ensures run { (wants : Bool) → RunsBy way.entry (session_state wants H.program H.timeline session.old) most result.0 result.1 (H.timeline session.new.history) }
{
    match way {
        Way::Forward => session.run_to_depth(most),
        Way::Back => session.run_back_to_depth(most),
        Way::BackPast(stops) => session.run_back_past(stops, most),
    }
}

/// The same over a history that goes by single moves.
pub fn run<'c, A: Allocator + Copy + 'c, H: History<A, Machine<'c, A>> + Stepwise>(
    session: &mut Session<A, H>,
    way: Way<'_, A>,
    most: usize,
) -> (DepthEnd, u64)
    requires before { way ≡ Forward → position (H.timeline session.old.history) < 2 ^ 61 }
    requires limit { way ≡ Forward → session.old.limit ≤ 4294967295 }
    ensures rest { session_state true H.program H.timeline session.new ≡ record (session_state true H.program H.timeline session.old) { timeline = H.timeline session.new.history } }
    ensures run { RunsBy way.entry (session_state true H.program H.timeline session.old) most result.0 result.1 (H.timeline session.new.history) }
{
    let code: Option<&'c Code<'c, A>> = None;
    run_over(session, code, way, most)
}
