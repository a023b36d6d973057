//! The temporaries of a frame, as variables.

ghost use Rattle.std.specs.Prelude.{◌≡◌, ◌==◌, ℕ, ◌+◌, ◌++◌, codes, List, drop, slice_get, IfOk, Some};
ghost use Rattle.json.specs.Token.{Token};
ghost use Rattle.qil_memory.specs.Live.{live};
ghost use Rattle.qil_code.specs.Numbered.{func_at, names_of};
ghost use Rattle.qil_state.specs.State.{frame_state};
ghost use Rattle.qrev_protocol.specs.Outgoing.{Adds};
ghost use Rattle.qrev_views.specs.Pages.{page_of};
ghost use Rattle.qrev_views.specs.Texts.{shown_text};
ghost use Rattle.qrev_views.specs.Variables.{class_letter, letter_of, live_reference, variable_head, name_member, ShowsTemp, ShowsTemps};

use crate::bytes::byte_at;
use crate::remarks::told_value;
use crate::texts::sigiled;
use crate::values::Style;
use crate::variable::{
    Page, Showing, add_address, add_expression, add_type, begin_variable, end_variable,
};
use qil_code::{Code, Slot};
use qil_history::FrameView;
use qil_render::{Readers, code_of, func_name, temp_name};
use qil_tree::Class;
use qrev_map::{FloatClass, Names};
use qrev_protocol::{Array, InArray, Object, Surrounding};
use std::alloc::{AllocError, Allocator};

/// The reference of what the first temporary of the first frame points to.
pub const POINTED: u64 = 1 << 28;

/// The letter of the class of a temporary.
pub fn class_letter(class: Option<Class>) -> &'static str
    ensures { result.now ≡ class_letter class }
{
    match class {
        Some(Class::W) => "w",
        _ => "l",
    }
}

/// The letter of the float that a value is, or of its class.
pub fn letter_of(float: Option<FloatClass>, class: Option<Class>) -> &'static str
    ensures { result.now ≡ letter_of float class }
{
    match float {
        Some(FloatClass::Single) => "s",
        Some(FloatClass::Double) => "d",
        None => class_letter(class),
    }
}

/// Adds a reference to the memory at a value, if that is the address of a live byte.
fn add_live_address<'c, A: Allocator + Copy + 'c, M: Readers<A, Code<'c, A>>, U: Surrounding>(
    alloc: A,
    machine: &M,
    variable: Object<A, InArray<U>>,
    showing: Showing,
    value: Option<u64>,
) -> Result<Object<A, InArray<U>>, AllocError>
    ensures { IfOk result (λ o. Adds variable.out o.out (live_reference showing.has_references (live (M.whole machine.now).memory) value)) }
{
    let Some(address) = value else {
        return Ok(variable);
    };
    if byte_at(machine, address).is_none() {
        return Ok(variable);
    }
    let variable = add_address(alloc, variable, showing, address)?;
    Ok(variable)
}

/// Whether a value is the address of a live byte.
fn is_live<'c, A: Allocator + Copy + 'c, M: Readers<A, Code<'c, A>>>(
    machine: &M,
    value: Option<u64>,
) -> bool {
    match value {
        Some(address) => byte_at(machine, address).is_some(),
        None => false,
    }
}

/// The reference of what a temporary of the frame of a number points to, if it is the address of a live byte.
fn pointed<'c, A: Allocator + Copy + 'c, M: Readers<A, Code<'c, A>>>(
    machine: &M,
    number: u64,
    slot: Slot,
    class: Option<Class>,
    value: Option<u64>,
) -> u64 {
    if !matches!(class, Some(Class::L)) || !is_live(machine, value) {
        return 0;
    }
    let before = number.saturating_sub(1).min(1000) * 65_536;
    POINTED + before + u64::from(slot.index)
}

/// Begins a temporary with the name that is shown.
fn begin_temp<A: Allocator + Copy, U: Surrounding>(
    alloc: A,
    list: Array<A, U>,
    name: &[u8],
    value: &str,
    parts: u64,
) -> Result<Object<A, InArray<U>>, AllocError>
    ensures { IfOk result (λ o. Adds list.out o.out (variable_head (shown_text (codes "%" ++ name.now)) value.now parts)) }
{
    let name = sigiled(alloc, b"%", name)?;
    let variable = begin_variable(list, name.as_str(), value, parts)?;
    Ok(variable)
}

/// Adds the expression of a temporary, which is its own name.
fn add_temp_name<A: Allocator + Copy, U: Surrounding>(
    alloc: A,
    variable: Object<A, InArray<U>>,
    name: &[u8],
) -> Result<Object<A, InArray<U>>, AllocError>
    ensures { IfOk result (λ o. Adds variable.out o.out (name_member (shown_text (codes "%" ++ name.now)))) }
{
    let name = sigiled(alloc, b"%", name)?;
    let variable = add_expression(variable, name.as_str())?;
    Ok(variable)
}

/// Adds a temporary of a frame, by its name in the text that was lowered.
fn put_temp<'c, A: Allocator + Copy + 'c, M: Readers<A, Code<'c, A>>, U: Surrounding>(
    alloc: A,
    list: Array<A, U>,
    machine: &M,
    names: &Names<A>,
    frame: &FrameView<'_>,
    number: u64,
    slot: Slot,
    value: Option<u64>,
    showing: Showing,
) -> Result<Array<A, U>, AllocError>
    ensures { (x : List ℕ) → slice_get (names_of (M.whole machine.now).program frame.now.func) slot.index ≡ Some x
        → IfOk result (λ l. (item : List Token) × ShowsTemp (func_at (M.whole machine.now).program frame.now.func) (live (M.whole machine.now).memory) names.now.text.items showing (number == 1) x value item × Adds list.out l.out item) }
{
    let code = code_of(machine);
    let name = temp_name(code, frame.func(), slot);
    let class = code.class_of(frame.func(), slot);
    let float = names.class_of(func_name(code, frame.func()), name);
    let letter = letter_of(float, class);
    let text = told_value(alloc, code, Style::of(float, showing.is_hex), class, value)?;
    let parts = pointed(machine, number, slot, class, value);
    let told = names.told(b"%", name);
    let variable = begin_temp(alloc, list, told, text.as_str(), parts)?;
    let variable = add_type(variable, showing, letter)?;
    let variable = add_temp_name(alloc, variable, name)?;
    let variable = add_live_address(alloc, machine, variable, showing, value)?;
    let list = end_variable(variable, number == 1)?;
    Ok(list)
}

/// Adds the temporaries of a page of the frame of a number, in the order in which the function's text first names them. Those of
/// the innermost frame can be set.
pub fn put_temps<'c, A: Allocator + Copy + 'c, M: Readers<A, Code<'c, A>>, U: Surrounding>(
    alloc: A,
    list: Array<A, U>,
    machine: &M,
    names: &Names<A>,
    frame: &FrameView<'_>,
    number: u64,
    showing: Showing,
    page: Page,
) -> Result<Array<A, U>, AllocError>
    ensures { (k : ℕ) → slice_get (M.whole machine.now).frames k ≡ Some frame.now
        → IfOk result (λ l. (items : List Token) × ShowsTemps (M.whole machine.now).program (live (M.whole machine.now).memory) names.now.text.items showing (number == 1)
        (frame_state (M.whole machine.now).program (drop (k + 1) (M.whole machine.now).frames) frame.now) page items × Adds list.out l.out items) }
{
    // What these two say is that the slots of a frame have the names of its function.
    let _known = code_of(machine).func(frame.func());
    let _there = machine.frame(0);
    let slots = frame.slots();
    let (first, after) = page.of(slots.len());
    let mut list = list;
    for index in first..after {
        let slot = Slot {
            index: index as u16,
        };
        list = put_temp(
            alloc,
            list,
            machine,
            names,
            frame,
            number,
            slot,
            slots[index],
            showing,
        )?;
    }
    Ok(list)
}
