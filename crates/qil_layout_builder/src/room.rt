//! Whether data fits, without a sum that could pass 64 bits.

ghost use Rattle.std.specs.Prelude.{◌≡◌};
ghost use Rattle.std.specs.List.{sum_by};
ghost use Rattle.qil_layout.specs.Layout.{width_bytes, item_size, field_size};
ghost use Rattle.qil_layout_builder.specs.Room.{IsLeft};

use qil_tree::{Field, Item, Width};
use std::alloc::Allocator;

/// The bytes of a number or an address of that width.
pub fn width_bytes(width: Width) -> usize
    ensures { result ≡ width_bytes width }
{
    match width {
        Width::B => 1,
        Width::H => 2,
        Width::W => 4,
        Width::L => 8,
    }
}

fn item_size<A: Allocator>(width: Width, item: &Item<'_, A>) -> u64
    ensures { result ≡ item_size width item.now }
{
    match item {
        Item::Number(_) => width_bytes(width) as u64,
        Item::Text(bytes) => bytes.as_slice().len() as u64,
        Item::Address(_, _) => width_bytes(width) as u64,
    }
}

/// The room after so many bytes.
fn after(room: u64, size: u64) -> Option<u64>
    ensures { IsLeft room size result }
{
    if size <= room {
        Some(room - size)
    } else {
        None
    }
}

fn after_items<A: Allocator>(room: u64, width: Width, items: &[Item<'_, A>]) -> Option<u64>
    ensures { IsLeft room (sum_by (item_size width) items.now) result }
{
    let mut left = room;
    for item in items {
        match after(left, item_size(width, item)) {
            Some(more) => left = more,
            None => return None,
        }
    }
    Some(left)
}

fn after_field<A: Allocator>(room: u64, field: &Field<'_, A>) -> Option<u64>
    ensures { IsLeft room (field_size field.now) result }
{
    match field {
        Field::Values(width, items) => after_items(room, *width, items.as_slice()),
        Field::Zeros(count) => after(room, *count),
    }
}

/// The room after the fields of an object, if they fit.
pub fn after_fields<A: Allocator>(room: u64, fields: &[Field<'_, A>]) -> Option<u64>
    ensures { IsLeft room (sum_by field_size fields.now) result }
{
    let mut left = room;
    for field in fields {
        match after_field(left, field) {
            Some(more) => left = more,
            None => return None,
        }
    }
    Some(left)
}
