//! Where one object stands after another, or why it can't.

ghost use Rattle.std.specs.Prelude.{◌≡◌, ◌+◌, ◌-◌, ◌^◌, ◌<◌, ◌≤◌, nat_lt, if◌then◌else◌, Some, None, IfOk, IfErr};
ghost use Rattle.qil_layout.specs.Layout.{rounded, is_alignment, align_of, start_of, end_of, data_limit, object_fault};

use crate::room::after_fields;
use qil_layout::{LayoutCode, rounded_up};
use qil_tree::Data;
use std::alloc::Allocator;

/// The first address that the data can't reach.
const DATA_LIMIT: u64 = 1_114_112;

/// The alignment of an object for which none is written.
const DEFAULT_ALIGN: u64 = 16;

fn is_alignment(align: u64) -> bool
    ensures { result ≡ is_alignment align }
{
    align == 1
        || align == 2
        || align == 4
        || align == 8
        || align == 16
        || align == 32
        || align == 64
        || align == 128
        || align == 256
        || align == 512
        || align == 1024
        || align == 2048
        || align == 4096
}

fn align_of<A: Allocator>(object: &Data<'_, A>) -> u64
    ensures { result ≡ align_of object.now }
{
    object.align.unwrap_or(DEFAULT_ALIGN)
}

/// Where an object begins and ends.
#[derive(Clone, Copy)]
pub struct Span {
    pub start: u64,
    pub end: u64,
}

/// How many bytes there are from an address to the end of all data, if it isn't after that.
fn room_from(start: u64) -> Option<u64>
    ensures { result ≡ if nat_lt data_limit start then None else Some (data_limit - start) }
{
    if start > DATA_LIMIT {
        None
    } else {
        Some(DATA_LIMIT - start)
    }
}

/// Where an object stands that comes at an address or after it, or why it can't.
pub fn span_of<A: Allocator>(at: u64, object: &Data<'_, A>) -> Result<Span, LayoutCode>
    requires { at ≤ 1114112 }
    ensures start { IfOk result (λ s. s.start ≡ start_of at object.now) }
    ensures end { IfOk result (λ s. s.end ≡ end_of at object.now) }
    ensures within { IfOk result (λ s. s.end ≤ 1114112) }
    ensures no_fault { IfOk result (λ s. object_fault at object.now ≡ None) }
    ensures fault { IfErr result (λ code. object_fault at object.now ≡ Some code) }
{
    let align = align_of(object);
    if !is_alignment(align) {
        return Err(LayoutCode::Y2);
    }
    let start = rounded_up(align, at);
    let Some(room) = room_from(start) else {
        return Err(LayoutCode::Y1);
    };
    match after_fields(room, object.fields.as_slice()) {
        Some(left) => Ok(Span {
            start,
            end: DATA_LIMIT - left,
        }),
        None => Err(LayoutCode::Y1),
    }
}
