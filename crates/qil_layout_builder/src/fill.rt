//! The bytes of the data.

ghost use Rattle.std.specs.Prelude.{◌≡◌, ◌++◌, None, OnOk, IfOk};
ghost use Rattle.std.specs.List.{flat_map};
ghost use Rattle.qil_layout.specs.Layout.{width_bytes, low_bytes, zeros, item_bytes, field_bytes, bytes_from, fault_from};
ghost use Rattle.qil_symbols.specs.Tables.{value_at};

use crate::place::span_of;
use qil_layout::DATA_BASE;
use qil_symbols::Firsts;
use qil_tree::{Data, Field, Item, Width};
use std::alloc::{AllocError, Allocator};

/// Pushes the low bytes of a number that a width has, the least significant first.
fn push_number<A: Allocator>(
    out: &mut Vec<u8, A>,
    width: Width,
    number: u64,
) -> Result<(), AllocError>
    ensures { OnOk result (out.new.items ≡ out.old.items ++ low_bytes (width_bytes width) number) }
{
    match width {
        Width::B => out.extend_from_slice(&[(number % 0x100) as u8]),
        Width::H => out.extend_from_slice(&((number % 0x1_0000) as u16).to_le_bytes()),
        Width::W => out.extend_from_slice(&((number % 0x1_0000_0000) as u32).to_le_bytes()),
        Width::L => out.extend_from_slice(&number.to_le_bytes()),
    }
}

#[tactic(auto, unfolding(qil_layout::specs::Layout::zeros))]
fn push_zeros<A: Allocator>(out: &mut Vec<u8, A>, count: u64) -> Result<(), AllocError>
    ensures { OnOk result (out.new.items ≡ out.old.items ++ zeros count) }
{
    for _ in 0..count {
        out.push(0)?;
    }
    Ok(())
}

fn push_item<'a, A: Allocator + Copy>(
    out: &mut Vec<u8, A>,
    names: &Firsts<'a, u64, A>,
    width: Width,
    item: &Item<'a, A>,
) -> Result<(), AllocError>
    ensures { OnOk result (out.new.items ≡ out.old.items ++ item_bytes (value_at names.now.values) width item.now) }
{
    match item {
        Item::Number(number) => push_number(out, width, *number),
        Item::Text(bytes) => out.extend_from_slice(bytes.as_slice()),
        Item::Address(name, offset) => {
            let address = names.get(name.bytes()).unwrap_or(0);
            push_number(out, width, address.wrapping_add(*offset))
        }
    }
}

fn push_items<'a, A: Allocator + Copy>(
    out: &mut Vec<u8, A>,
    names: &Firsts<'a, u64, A>,
    width: Width,
    items: &[Item<'a, A>],
) -> Result<(), AllocError>
    ensures { OnOk result (out.new.items ≡ out.old.items ++ flat_map (item_bytes (value_at names.now.values) width) items.now) }
{
    for item in items {
        push_item(out, names, width, item)?;
    }
    Ok(())
}

fn push_field<'a, A: Allocator + Copy>(
    out: &mut Vec<u8, A>,
    names: &Firsts<'a, u64, A>,
    field: &Field<'a, A>,
) -> Result<(), AllocError>
    ensures { OnOk result (out.new.items ≡ out.old.items ++ field_bytes (value_at names.now.values) field.now) }
{
    match field {
        Field::Values(width, items) => push_items(out, names, *width, items.as_slice()),
        Field::Zeros(count) => push_zeros(out, *count),
    }
}

fn push_fields<'a, A: Allocator + Copy>(
    out: &mut Vec<u8, A>,
    names: &Firsts<'a, u64, A>,
    fields: &[Field<'a, A>],
) -> Result<(), AllocError>
    ensures { OnOk result (out.new.items ≡ out.old.items ++ flat_map (field_bytes (value_at names.now.values)) fields.now) }
{
    for field in fields {
        push_field(out, names, field)?;
    }
    Ok(())
}

/// The bytes of data that has no fault, the first at the data's base.
pub fn bytes_of<'a, A: Allocator + Copy>(
    alloc: A,
    names: &Firsts<'a, u64, A>,
    datas: &[Data<'a, A>],
) -> Result<Vec<u8, A>, AllocError>
    requires { fault_from 65536 datas.now ≡ None }
    ensures { IfOk result (λ v. v.items ≡ bytes_from (value_at names.now.values) 65536 datas.now) }
{
    let mut out = Vec::new(alloc);
    let mut at = DATA_BASE;
    for object in datas {
        match span_of(at, object) {
            Ok(span) => {
                push_zeros(&mut out, span.start - at)?;
                push_fields(&mut out, names, object.fields.as_slice())?;
                at = span.end;
            }
            Err(_) => return Ok(out),
        }
    }
    Ok(out)
}
