//! What a state has besides temporaries and data, as variables that can't be set.

ghost use Rattle.std.specs.Prelude.{◌≡◌, List, ℕ, codes, decimal, flat_map, slice_get, IfOk, Some};
ghost use Rattle.qil_render.specs.Texts.{state_line};
ghost use Rattle.qil_state.specs.State.{state_of};
ghost use Rattle.qrev_protocol.specs.Outgoing.{Adds};
ghost use Rattle.qrev_views.specs.Pages.{page_of};
ghost use Rattle.qrev_views.specs.Texts.{shown_text, without_end};
ghost use Rattle.qrev_views.specs.Variables.{fixed_tokens, machine_rows};

use crate::texts::{as_text, number_text, place_text};
use crate::variable::{Page, begin_variable, end_read_only};
use qil_code::Code;
use qil_render::Readers;
use qrev_protocol::{Array, Surrounding};
use std::alloc::{AllocError, Allocator};

/// How many variables a machine has.
pub const MACHINE_VARIABLES: usize = 4;

/// Adds a variable that can't be set.
fn put_fixed<A: Allocator, U: Surrounding>(
    list: Array<A, U>,
    name: &str,
    value: &str,
) -> Result<Array<A, U>, AllocError>
    ensures { IfOk result (λ l. Adds list.out l.out (fixed_tokens (name.now, value.now))) }
{
    end_read_only(begin_variable(list, name, value, 0)?)
}

/// Adds one whose value is a number.
fn put_number<A: Allocator + Copy, U: Surrounding>(
    alloc: A,
    list: Array<A, U>,
    name: &str,
    value: u64,
) -> Result<Array<A, U>, AllocError>
    ensures { IfOk result (λ l. Adds list.out l.out (fixed_tokens (name.now, decimal value))) }
{
    let value = number_text(alloc, value)?;
    let list = put_fixed(list, name, value.as_str())?;
    Ok(list)
}

/// Adds the output.
fn put_output<A: Allocator + Copy, U: Surrounding>(
    alloc: A,
    list: Array<A, U>,
    output: &[u8],
) -> Result<Array<A, U>, AllocError>
    ensures { IfOk result (λ l. Adds list.out l.out (fixed_tokens (codes "output", shown_text output.now))) }
{
    let output = as_text(alloc, output)?;
    let list = put_fixed(list, "output", output.as_str())?;
    Ok(list)
}

/// Adds the place.
fn put_place<'c, A: Allocator + Copy + 'c, M: Readers<A, Code<'c, A>>, U: Surrounding>(
    alloc: A,
    list: Array<A, U>,
    position: u64,
    machine: &M,
) -> Result<Array<A, U>, AllocError>
    ensures { IfOk result (λ l. Adds list.out l.out (fixed_tokens
        (codes "place", shown_text (without_end (state_line position (state_of (M.whole machine.now)).frames (state_of (M.whole machine.now)).status))))) }
{
    let place = place_text(alloc, position, machine)?;
    let list = put_fixed(list, "place", place.as_str())?;
    Ok(list)
}

/// Adds the variable of a number: the place, the position of the oldest state that is kept, the first dead address of the stack,
/// and the output.
fn put_nth<'c, A: Allocator + Copy + 'c, M: Readers<A, Code<'c, A>>, U: Surrounding>(
    alloc: A,
    list: Array<A, U>,
    position: u64,
    oldest: u64,
    machine: &M,
    top: u64,
    number: usize,
) -> Result<Array<A, U>, AllocError>
    requires { top ≡ (state_of (M.whole machine.now)).top }
    ensures { (row : List ℕ × List ℕ) → slice_get (machine_rows position oldest (state_of (M.whole machine.now))) number ≡ Some row
        → IfOk result (λ l. Adds list.out l.out (fixed_tokens row)) }
{
    match number {
        0 => put_place(alloc, list, position, machine),
        1 => put_number(alloc, list, "oldest", oldest),
        2 => put_number(alloc, list, "top", top),
        _ => put_output(alloc, list, machine.output()),
    }
}

/// Adds the variables of a page. `top` is the first dead address of the machine's stack.
pub fn put_machine<'c, A: Allocator + Copy + 'c, M: Readers<A, Code<'c, A>>, U: Surrounding>(
    alloc: A,
    list: Array<A, U>,
    position: u64,
    oldest: u64,
    machine: &M,
    top: u64,
    page: Page,
) -> Result<Array<A, U>, AllocError>
    requires { top ≡ (state_of (M.whole machine.now)).top }
    ensures { IfOk result (λ l. Adds list.out l.out (flat_map fixed_tokens (page_of page (machine_rows position oldest (state_of (M.whole machine.now)))))) }
{
    let (first, after) = page.of(MACHINE_VARIABLES);
    let mut list = list;
    for number in first..after {
        list = put_nth(alloc, list, position, oldest, machine, top, number)?;
    }
    Ok(list)
}
