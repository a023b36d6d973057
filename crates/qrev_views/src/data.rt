//! The data objects of a program, as variables: of each its first item is shown, at the width that the text gives it.

ghost use Rattle.std.specs.Prelude.{◌≡◌, [], ◌∷◌, ◌++◌, None, List, IfOk, codes, string_bytes};
ghost use Rattle.json.specs.Token.{Token};
ghost use Rattle.qil_layout.specs.Layout.{width_bytes};
ghost use Rattle.qil_memory.specs.Calls.{IsWidth};
ghost use Rattle.qil_memory.specs.Live.{live};
ghost use Rattle.qrev_protocol.specs.Outgoing.{Adds};
ghost use Rattle.qil_fragments.specs.Texts.{text_of};
ghost use Rattle.qrev_views.specs.Pages.{page_of};
ghost use Rattle.qrev_views.specs.Texts.{shown_text};
ghost use Rattle.qrev_views.specs.Variables.{shown_width, width_letter, data_letter, variable_head, name_member, ShowsData, ShowsEach};

use crate::bytes::value_at;
use crate::remarks::told_value;
use crate::texts::{joined, sigiled};
use crate::values::Style;
use crate::variable::{Page, Showing, add_address, add_expression, add_type, begin_variable};
use qil_code::Code;
use qil_fragments::Fragment;
use qil_render::{Readers, code_of};
use qil_tree::{Class, Data, Field, Item, Program, Width};
use qrev_map::{FloatClass, Names};
use qrev_protocol::{Array, InArray, Object, Surrounding};
use std::alloc::{AllocError, Allocator};

/// The data object of a name, which is without its sigil.
pub fn data_named<'p, 'a, A: Allocator>(
    program: &'p Program<'a, A>,
    name: &[u8],
) -> Option<&'p Data<'a, A>> {
    program
        .datas
        .as_slice()
        .iter()
        .find(|data| data.name.bytes() == name)
}

/// The reference of the parts of the first data object.
pub const OBJECTS: u64 = (1 << 30) + 2;

/// The class of a value of so many bytes, by which it is shown with its sign: one of one or two bytes has none.
fn class_of_width(width: u64) -> Option<Class> {
    if width == 8 {
        Some(Class::L)
    } else {
        Some(Class::W)
    }
}

/// How many bytes an item of a field has.
fn item_size<A: Allocator>(item: &Item<'_, A>, width: Width) -> u64 {
    match item {
        Item::Text(text) => text.as_slice().len() as u64,
        _ => width_bytes(width),
    }
}

/// How many bytes items have.
fn items_size<A: Allocator>(items: &[Item<'_, A>], width: Width) -> u64 {
    let mut size: u64 = 0;
    for item in items {
        size = size.saturating_add(item_size(item, width));
    }
    size
}

/// How many bytes a data object has.
pub fn data_size<A: Allocator>(data: &Data<'_, A>) -> u64 {
    let mut size: u64 = 0;
    for field in data.fields.as_slice() {
        let more = match field {
            Field::Values(width, items) => items_size(items.as_slice(), *width),
            Field::Zeros(count) => *count,
        };
        size = size.saturating_add(more);
    }
    size
}

/// The width at which a data object is shown: that of its first item, one byte for strings and zeros.
fn shown_width<A: Allocator>(data: &Data<'_, A>) -> Width
    ensures { result ≡ shown_width data.now.fields }
{
    match data.fields.as_slice().first() {
        Some(Field::Values(width, items)) => match items.as_slice().first() {
            Some(Item::Text(_)) | None => Width::B,
            Some(_) => *width,
        },
        _ => Width::B,
    }
}

/// The letter of that width, and how many bytes it is.
pub fn data_word<A: Allocator>(data: &Data<'_, A>) -> (&'static str, u64)
    ensures width { IsWidth result.1 }
    ensures letter { result.0.now ≡ width_letter (shown_width data.now.fields) }
    ensures bytes { result.1 ≡ width_bytes (shown_width data.now.fields) }
{
    match shown_width(data) {
        Width::B => ("b", 1),
        Width::H => ("h", 2),
        Width::W => ("w", 4),
        Width::L => ("l", 8),
    }
}

/// How many bytes a width is.
pub fn width_bytes(width: Width) -> u64
    ensures bytes { result ≡ width_bytes width }
    ensures width { IsWidth result }
{
    match width {
        Width::B => 1,
        Width::H => 2,
        Width::W => 4,
        Width::L => 8,
    }
}

/// The class of the float that a data object begins with, if the names say so and it is as wide.
pub fn data_float<A: Allocator>(names: &Names<A>, data: &Data<'_, A>) -> Option<FloatClass>
    ensures { names.now.text.items ≡ [] → result ≡ None }
{
    match (names.class_of_data(data.name.bytes()), shown_width(data)) {
        (Some(FloatClass::Single), Width::W) => Some(FloatClass::Single),
        (Some(FloatClass::Double), Width::L) => Some(FloatClass::Double),
        _ => None,
    }
}

/// The letter of a float, or that of a width.
fn data_letter<'l>(float: Option<FloatClass>, width: &'l str) -> &'l str
    ensures { (w : Width) → width.now ≡ width_letter w → result.now ≡ data_letter float w }
{
    match float {
        Some(FloatClass::Single) => "s",
        Some(FloatClass::Double) => "d",
        None => width,
    }
}

/// The expression of what a data object begins with, in the width of a letter.
fn data_expression<'x, A: Allocator + Copy>(
    alloc: A,
    letter: &'x str,
    name: &'x [u8],
) -> Result<String<A>, AllocError>
    ensures { IfOk result (λ text. string_bytes text ≡ shown_text (text_of (letter.now ∷ codes "[$" ∷ name.now ∷ codes "]" ∷ []))) }
{
    joined(
        alloc,
        &[
            Fragment::Bytes(letter.as_bytes()),
            Fragment::Bytes(b"[$"),
            Fragment::Bytes(name),
            Fragment::Bytes(b"]"),
        ],
    )
}

/// Whether items are more than one number.
fn are_parts<A: Allocator>(items: &[Item<'_, A>]) -> bool {
    match items.first() {
        Some(Item::Text(_)) => true,
        Some(_) => items.len() > 1,
        None => false,
    }
}

/// Whether a data object has more than one item, so that it has parts.
fn has_parts<A: Allocator>(data: &Data<'_, A>) -> bool {
    let fields = data.fields.as_slice();
    match fields.first() {
        Some(Field::Values(_, items)) => fields.len() > 1 || are_parts(items.as_slice()),
        Some(Field::Zeros(_)) => true,
        None => false,
    }
}

/// The reference of the parts of the data object of a number, if it has some.
fn data_parts<A: Allocator>(data: &Data<'_, A>, index: usize) -> u64 {
    if has_parts(data) && index < 1_000_000 {
        OBJECTS + index as u64
    } else {
        0
    }
}

/// Begins a data object with its name.
fn begin_data<A: Allocator + Copy, U: Surrounding>(
    alloc: A,
    list: Array<A, U>,
    name: &[u8],
    value: &str,
    parts: u64,
) -> Result<Object<A, InArray<U>>, AllocError>
    ensures { IfOk result (λ o. Adds list.out o.out (variable_head (shown_text (codes "$" ++ name.now)) value.now parts)) }
{
    let name = sigiled(alloc, b"$", name)?;
    let variable = begin_variable(list, name.as_str(), value, parts)?;
    Ok(variable)
}

/// Adds the expression of what a data object begins with.
fn add_data_expression<'x, A: Allocator + Copy, U: Surrounding>(
    alloc: A,
    variable: Object<A, InArray<U>>,
    letter: &'x str,
    name: &'x [u8],
) -> Result<Object<A, InArray<U>>, AllocError>
    ensures { IfOk result (λ o. Adds variable.out o.out (name_member (shown_text (text_of (letter.now ∷ codes "[$" ∷ name.now ∷ codes "]" ∷ []))))) }
{
    let expression = data_expression(alloc, letter, name)?;
    let variable = add_expression(variable, expression.as_str())?;
    Ok(variable)
}

/// Adds the data object of a number.
fn put_object<'c, A: Allocator + Copy + 'c, M: Readers<A, Code<'c, A>>, U: Surrounding>(
    alloc: A,
    list: Array<A, U>,
    machine: &M,
    names: &Names<A>,
    data: &Data<'_, A>,
    index: usize,
    showing: Showing,
) -> Result<Array<A, U>, AllocError>
    ensures { IfOk result (λ l. (item : List Token) × ShowsData (M.whole machine.now).program (live (M.whole machine.now).memory) names.now.text.items showing data.now item × Adds list.out l.out item) }
{
    let (width_letter, width) = data_word(data);
    let float = data_float(names, data);
    let letter = data_letter(float, width_letter);
    let code = code_of(machine);
    let address = code.image().address(data.name.bytes()).unwrap_or(0);
    let value = value_at(machine, address, width);
    let style = Style::of(float, showing.is_hex);
    let text = told_value(alloc, code, style, class_of_width(width), value)?;
    let parts = data_parts(data, index);
    let variable = begin_data(alloc, list, data.name.bytes(), text.as_str(), parts)?;
    let variable = add_type(variable, showing, letter)?;
    let variable = add_data_expression(alloc, variable, letter, data.name.bytes())?;
    let variable = add_address(alloc, variable, showing, address)?;
    let list = variable.end_item()?;
    Ok(list)
}

/// Adds the data objects of a page, in the order of the text.
pub fn put_data<'c, A: Allocator + Copy + 'c, M: Readers<A, Code<'c, A>>, U: Surrounding>(
    alloc: A,
    list: Array<A, U>,
    machine: &M,
    program: &Program<'c, A>,
    names: &Names<A>,
    showing: Showing,
    page: Page,
) -> Result<Array<A, U>, AllocError>
    ensures { IfOk result (λ l. (items : List Token)
        × ShowsEach (ShowsData (M.whole machine.now).program (live (M.whole machine.now).memory) names.now.text.items showing) (page_of page program.now.datas) items × Adds list.out l.out items) }
{
    let datas = program.datas.as_slice();
    let (first, after) = page.of(datas.len());
    let mut list = list;
    for index in first..after {
        list = put_object(alloc, list, machine, names, &datas[index], index, showing)?;
    }
    Ok(list)
}
