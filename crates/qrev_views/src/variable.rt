//! A variable, and which of many are shown.

ghost use Rattle.std.specs.Prelude.{◌≡◌, ◌+◌, true, [], ◌∷◌, ◌++◌, cond, IfOk, min};
ghost use Rattle.json.specs.Token.{end_object};
ghost use Rattle.qrev_protocol.specs.Outgoing.{Adds};
ghost use Rattle.qrev_views.specs.Variables.{variable_head, type_member, name_member, read_only, reference};

use crate::texts::number_text;
use qrev_protocol::{Array, InArray, Object, Surrounding};
use std::alloc::{AllocError, Allocator};

/// The form in which an editor asks for variables.
#[derive(Clone, Copy)]
pub struct Showing {
    pub is_hex: bool,
    /// Whether it understands types.
    pub has_types: bool,
    /// Whether it understands references to memory.
    pub has_references: bool,
}

/// Which items of a list are shown: those from the `start`-th on, counted from 0, and at most `count`.
#[derive(Clone, Copy)]
pub struct Page {
    pub start: u64,
    pub count: u64,
}

impl Page {
    /// The items of a list that are shown, as the first and the one after the last.
    pub fn of(self, length: usize) -> (usize, usize)
        ensures first { result.0 ≡ min self.start length }
        ensures after { result.1 ≡ min (result.0 + self.count) length }
    {
        let length = length as u64;
        let first = self.start.min(length);
        let after = first.saturating_add(self.count).min(length);
        (first as usize, after as usize)
    }
}

/// Begins a variable with its name, its value, and the reference by which its parts are asked for: 0 if it has none.
pub fn begin_variable<A: Allocator, U: Surrounding>(
    list: Array<A, U>,
    name: &str,
    value: &str,
    parts: u64,
) -> Result<Object<A, InArray<U>>, AllocError>
    ensures { IfOk result (λ o. Adds list.out o.out (variable_head name.now value.now parts)) }
{
    let variable = list
        .object()?
        .text("name", name)?
        .text("value", value)?
        .number("variablesReference", parts)?;
    Ok(variable)
}

/// Adds the type, if the editor understands it.
pub fn add_type<A: Allocator, U: Surrounding>(
    variable: Object<A, InArray<U>>,
    showing: Showing,
    letter: &str,
) -> Result<Object<A, InArray<U>>, AllocError>
    ensures { IfOk result (λ o. Adds variable.out o.out (type_member showing.has_types letter.now)) }
{
    if !showing.has_types {
        return Ok(variable);
    }
    let variable = variable.text("type", letter)?;
    Ok(variable)
}

/// Adds the expression that gives its value.
pub fn add_expression<A: Allocator, U: Surrounding>(
    variable: Object<A, InArray<U>>,
    expression: &str,
) -> Result<Object<A, InArray<U>>, AllocError>
    ensures { IfOk result (λ o. Adds variable.out o.out (name_member expression.now)) }
{
    let variable = variable.text("evaluateName", expression)?;
    Ok(variable)
}

/// Ends a variable that can't be set.
pub fn end_read_only<A: Allocator, U: Surrounding>(
    variable: Object<A, InArray<U>>,
) -> Result<Array<A, U>, AllocError>
    ensures { IfOk result (λ l. Adds variable.out l.out (read_only ++ end_object ∷ [])) }
{
    let list = variable
        .object("presentationHint")?
        .array("attributes")?
        .text("readOnly")?
        .end()?
        .end()?
        .end_item()?;
    Ok(list)
}

/// Adds a reference to the memory at an address.
fn put_reference<A: Allocator + Copy, U: Surrounding>(
    alloc: A,
    variable: Object<A, InArray<U>>,
    address: u64,
) -> Result<Object<A, InArray<U>>, AllocError>
    ensures { IfOk result (λ o. Adds variable.out o.out (reference true address)) }
{
    let address = number_text(alloc, address)?;
    let variable = variable.text("memoryReference", address.as_str())?;
    Ok(variable)
}

/// Adds a reference to the memory at an address, if the editor understands it.
pub fn add_address<A: Allocator + Copy, U: Surrounding>(
    alloc: A,
    variable: Object<A, InArray<U>>,
    showing: Showing,
    address: u64,
) -> Result<Object<A, InArray<U>>, AllocError>
    ensures { IfOk result (λ o. Adds variable.out o.out (reference showing.has_references address)) }
{
    if !showing.has_references {
        return Ok(variable);
    }
    let variable = put_reference(alloc, variable, address)?;
    Ok(variable)
}

/// Ends a variable, which can be set or can't.
pub fn end_variable<A: Allocator, U: Surrounding>(
    variable: Object<A, InArray<U>>,
    can_be_set: bool,
) -> Result<Array<A, U>, AllocError>
    ensures { IfOk result (λ l. Adds variable.out l.out (cond can_be_set [] read_only ++ end_object ∷ [])) }
{
    if can_be_set {
        variable.end_item()
    } else {
        end_read_only(variable)
    }
}
