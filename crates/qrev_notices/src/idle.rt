//! The requests that need no session.

ghost use Rattle.qrev_notices.specs.Conversation.{asked_by, spoken, Responds};

use crate::port::{Port, begin_body};
use crate::trouble::Trouble;
use qil_streams::Sink;
use qrev_debuggee::{Body, Cause, Client};
use qrev_protocol::Request;
use qrev_requests::Arguments;
use qrev_views::Numbering;
use std::alloc::{AllocError, Allocator};

const CAPABILITIES: [&str; 20] = [
    "supportsConfigurationDoneRequest",
    "supportsFunctionBreakpoints",
    "supportsDataBreakpoints",
    "supportsEvaluateForHovers",
    "supportsStepBack",
    "supportsSetVariable",
    "supportsRestartFrame",
    "supportsExceptionInfoRequest",
    "supportsReadMemoryRequest",
    "supportsWriteMemoryRequest",
    "supportsSteppingGranularity",
    "supportsTerminateRequest",
    "supportsBreakpointLocationsRequest",
    "supportsCompletionsRequest",
    "supportsRestartRequest",
    "supportsConditionalBreakpoints",
    "supportsHitConditionalBreakpoints",
    "supportsLogPoints",
    "supportsSetExpression",
    "supportsValueFormattingOptions",
];

/// The body with what the adapter can do.
fn capabilities<A: Allocator + Copy>(
    alloc: A,
    request: &Request<'_>,
) -> Result<Body<A>, AllocError> {
    let mut body = begin_body(alloc, request)?;
    for capability in &CAPABILITIES {
        body = body.flag(capability, true)?;
    }
    Ok(body)
}

/// Tells what is served.
fn initialize<A: Allocator + Copy, W: Sink>(
    alloc: A,
    port: &mut Port<A, W>,
    request: Request<'_>,
) -> Result<(), Trouble>
    ensures { Responds result (asked_by request.entry) (spoken W.contents port.old) (spoken W.contents port.new) }
{
    let Ok(body) = capabilities(alloc, &request) else {
        request.end();
        return Err(Trouble::OutOfMemory);
    };
    port.respond(request, body)
}

/// Whether an editor asks for its watches anew wherever the run stands. Emacs' dap-mode says of itself that it is VS Code, and does
/// so too.
fn repeats_watches(name: Option<&str>) -> bool {
    match name {
        Some(name) => name == "vscode",
        None => false,
    }
}

/// What an editor says of itself.
pub fn client_said<A: Allocator + Copy>(asked: Arguments<'_, '_, A>) -> Client {
    Client {
        numbering: Numbering {
            first_line: u32::from(asked.flag("linesStartAt1").unwrap_or(true)),
            first_column: u32::from(asked.flag("columnsStartAt1").unwrap_or(true)),
        },
        has_types: asked.flag("supportsVariableType").unwrap_or(false),
        has_references: asked.flag("supportsMemoryReferences").unwrap_or(false),
        repeats_watches: repeats_watches(asked.text("clientID")),
    }
}

/// Whether an editor says of itself that it shows how far a long run is.
pub fn progress_said<A: Allocator + Copy>(asked: Arguments<'_, '_, A>) -> bool {
    asked.flag("supportsProgressReporting").unwrap_or(false)
}

/// Why a command isn't served without a session.
fn cause_of(command: &str) -> Cause {
    if command == "attach" {
        Cause::NotSupported
    } else {
        Cause::NoSession
    }
}

/// Responds to a request that needs no session.
pub fn respond_idle<A: Allocator + Copy, W: Sink>(
    alloc: A,
    port: &mut Port<A, W>,
    request: Request<'_>,
) -> Result<(), Trouble>
    ensures { Responds result (asked_by request.entry) (spoken W.contents port.old) (spoken W.contents port.new) }
{
    let command = request.command();
    if command == "initialize" {
        return initialize(alloc, port, request);
    }
    if command == "terminate" || command == "disconnect" {
        return port.accept(request);
    }
    port.refuse(request, cause_of(command).as_str())
}
