//! The scopes of a frame: its temporaries, the data of the program, and the machine.

ghost use Rattle.std.specs.Prelude.{◌++◌, length, IfOk};
ghost use Rattle.qrev_protocol.specs.Outgoing.{Adds};
ghost use Rattle.qrev_views.specs.Scopes.{scope_name, scope_variables, hinted_scope, locals_scope, scopes_tokens};

use crate::machine::MACHINE_VARIABLES;
use qil_history::FrameView;
use qrev_protocol::{Array, InArray, InObject, Object, Surrounding};
use std::alloc::{AllocError, Allocator};

/// The reference of the scope of the machine. Those of the temporaries of frames are the numbers of the frames.
pub const MACHINE: u64 = 1 << 30;

/// The reference of the scope of the data objects.
pub const DATA: u64 = (1 << 30) + 1;

/// Ends a scope: by which reference its variables are asked for, and how many there are.
fn end_scope<A: Allocator, U: Surrounding>(
    scope: Object<A, InArray<U>>,
    reference: u64,
    count: usize,
) -> Result<Array<A, U>, AllocError>
    ensures { IfOk result (λ l. Adds scope.out l.out (scope_variables reference count)) }
{
    let list = scope
        .number("variablesReference", reference)?
        .number("namedVariables", count as u64)?
        .flag("expensive", false)?
        .end_item()?;
    Ok(list)
}

/// Adds a scope.
fn put_scope<A: Allocator, U: Surrounding>(
    list: Array<A, U>,
    name: &str,
    reference: u64,
    count: usize,
) -> Result<Array<A, U>, AllocError>
    ensures { IfOk result (λ l. Adds list.out l.out (scope_name name.now ++ scope_variables reference count)) }
{
    let scope = list.object()?.text("name", name)?;
    let list = end_scope(scope, reference, count)?;
    Ok(list)
}

/// Adds a scope that an editor shows in its own way: `locals` or `registers`.
fn put_hinted<A: Allocator, U: Surrounding>(
    list: Array<A, U>,
    name: &str,
    hint: &str,
    reference: u64,
    count: usize,
) -> Result<Array<A, U>, AllocError>
    ensures { IfOk result (λ l. Adds list.out l.out (hinted_scope name.now hint.now reference count)) }
{
    let scope = list
        .object()?
        .text("name", name)?
        .text("presentationHint", hint)?;
    let list = end_scope(scope, reference, count)?;
    Ok(list)
}

/// Adds the scope of the temporaries of the frame of a number, if there is one.
fn put_locals<A: Allocator, U: Surrounding>(
    list: Array<A, U>,
    frame: Option<FrameView<'_>>,
    number: u64,
) -> Result<Array<A, U>, AllocError>
    ensures { IfOk result (λ l. Adds list.out l.out (locals_scope number frame.entry)) }
{
    match frame {
        Some(frame) => {
            let list = put_hinted(list, "Temporaries", "locals", number, frame.slots().len())?;
            Ok(list)
        }
        None => Ok(list),
    }
}

/// Adds the scopes: the temporaries of the frame of a number, if there is one, as many data objects, and the machine.
pub fn put_scopes<A: Allocator, U: Surrounding>(
    body: Object<A, U>,
    frame: Option<FrameView<'_>>,
    number: u64,
    datas: usize,
) -> Result<Object<A, U>, AllocError>
    ensures { IfOk result (λ o. Adds body.out o.out (scopes_tokens number frame.entry datas)) }
{
    let list = put_locals(body.array("scopes")?, frame, number)?;
    let list = put_scope(list, "Data", DATA, datas)?;
    let list = put_hinted(list, "Machine", "registers", MACHINE, MACHINE_VARIABLES)?;
    let body = list.end()?;
    Ok(body)
}
