//! The words of a suspicion.

ghost use Rattle.std.specs.Prelude.{◌≡◌, ◌++◌, OnOk, option_map};
ghost use Rattle.qil_shadow.specs.Numbered.{kind_named, object_named};
ghost use Rattle.qil_shadow.specs.Doubts.{access_named, hit_named, place_named, suspicion_named};
ghost use Rattle.qil_suspicions.specs.Adding.{note_named};
ghost use Rattle.qrev_check.specs.Told.{kind_word, action_words, name_text, made_text, ended_text, life_text, size_text, object_text, behind_text, distance_text, made_of, meant_text, hit_text, head_text, suspicion_text, times_text, note_line};

use crate::line::Line;
use crate::names::{built_in_name, data_name, function_name, label_name, temp_name};
use qil_code::Code;
use qil_fragments::Fragment;
use qil_suspicions::{
    Access, Action, Doubt, Hit, Kind, Note, Object, ObjectKind, Place, Suspicion,
};
use qil_tree::{LoadOp, Width};
use std::alloc::{AllocError, Allocator};

/// The name of what an object is.
fn put_name<A: Allocator + Copy>(
    line: &mut Line<A>,
    code: &Code<'_, A>,
    kind: ObjectKind,
) -> Result<(), AllocError>
    ensures { OnOk result (line.new ≡ line.old ++ name_text (kind_named code.now kind)) }
{
    match kind {
        ObjectKind::Data(number) => {
            line.put_all(&[
                Fragment::Bytes(b"$"),
                Fragment::Bytes(data_name(code, number)),
            ])
        }
        ObjectKind::Func(func) => {
            line.put_all(&[
                Fragment::Bytes(b"$"),
                Fragment::Bytes(function_name(code, func)),
            ])
        }
        ObjectKind::BuiltIn(function) => {
            line.put_all(&[
                Fragment::Bytes(b"$"),
                Fragment::Bytes(built_in_name(function)),
            ])
        }
        ObjectKind::Slot(func, slot) => line.put_all(&[
            Fragment::Bytes(b"$"),
            Fragment::Bytes(function_name(code, func)),
            Fragment::Bytes(b" %"),
            Fragment::Bytes(temp_name(code, func, slot)),
        ]),
    }
}

/// When an object was made, if it is one of the stack.
fn put_made<A: Allocator + Copy>(
    line: &mut Line<A>,
    code: &Code<'_, A>,
    kind: ObjectKind,
    made: u64,
) -> Result<(), AllocError>
    ensures { OnOk result (line.new ≡ line.old ++ made_text (kind_named code.now kind) made) }
{
    // The clause alone names it.
    let _ = code;
    match kind {
        ObjectKind::Slot(_, _) => {
            line.put_all(&[Fragment::Bytes(b", made at #"), Fragment::Number(made)])
        }
        ObjectKind::Data(_) | ObjectKind::Func(_) | ObjectKind::BuiltIn(_) => line.put(b""),
    }
}

/// When an object ended, if it did.
fn put_ended<A: Allocator>(line: &mut Line<A>, ended: Option<u64>) -> Result<(), AllocError>
    ensures { OnOk result (line.new ≡ line.old ++ ended_text ended) }
{
    match ended {
        Some(position) => line.put_all(&[
            Fragment::Bytes(b", whose frame returned at #"),
            Fragment::Number(position),
            Fragment::Bytes(b")"),
        ]),
        None => line.put(b")"),
    }
}

/// When an object was made and ended.
fn put_life<A: Allocator + Copy>(
    line: &mut Line<A>,
    code: &Code<'_, A>,
    object: &Object,
) -> Result<(), AllocError>
    ensures { OnOk result (line.new ≡ line.old ++ life_text (object_named code.now object.now)) }
{
    put_made(line, code, object.kind, object.made)?;
    put_ended(line, object.ended)
}

/// The size of an object, and when it was made and ended.
fn put_size<A: Allocator + Copy>(
    line: &mut Line<A>,
    code: &Code<'_, A>,
    object: &Object,
) -> Result<(), AllocError>
    ensures { OnOk result (line.new ≡ line.old ++ size_text (object_named code.now object.now)) }
{
    if object.is_function() {
        return line.put(b", a function");
    }
    line.put(b" (")?;
    line.put_count(object.size, b"byte")?;
    put_life(line, code, object)
}

/// An object, with its size, and when it was made and ended.
fn put_object<A: Allocator + Copy>(
    line: &mut Line<A>,
    code: &Code<'_, A>,
    object: &Object,
) -> Result<(), AllocError>
    ensures { OnOk result (line.new ≡ line.old ++ object_text (object_named code.now object.now)) }
{
    put_name(line, code, object.kind)?;
    put_size(line, code, object)
}

/// What an access does.
fn action_words(action: Action) -> &'static [u8]
    ensures { result.now ≡ action_words action }
{
    match action {
        Action::Load(LoadOp::L) => b"loadl",
        Action::Load(LoadOp::Sw) => b"loadsw",
        Action::Load(LoadOp::Uw) => b"loaduw",
        Action::Load(LoadOp::Sh) => b"loadsh",
        Action::Load(LoadOp::Uh) => b"loaduh",
        Action::Load(LoadOp::Sb) => b"loadsb",
        Action::Load(LoadOp::Ub) => b"loadub",
        Action::Store(Width::B) => b"storeb",
        Action::Store(Width::H) => b"storeh",
        Action::Store(Width::W) => b"storew",
        Action::Store(Width::L) => b"storel",
        Action::CopyFrom => b"blit from",
        Action::CopyTo => b"blit to",
    }
}

fn kind_word(kind: Kind) -> &'static [u8]
    ensures { result.now ≡ kind_word kind }
{
    match kind {
        Kind::Bounds => b"bounds",
        Kind::Stale => b"stale",
        Kind::Cut => b"cut",
        Kind::Stray => b"stray",
    }
}

/// Where an access lies that begins so far behind the start of an object of a size.
fn put_behind<A: Allocator>(line: &mut Line<A>, size: u64, offset: u64) -> Result<(), AllocError>
    ensures { OnOk result (line.new ≡ line.old ++ behind_text size offset) }
{
    if offset < size {
        return line.put(b"across the end of");
    }
    if offset == size {
        return line.put(b"at the end of");
    }
    line.put_count(offset - size, b"byte")?;
    line.put(b" past the end of")
}

/// Where an access lies, as seen from an object.
fn put_distance<A: Allocator + Copy>(
    line: &mut Line<A>,
    code: &Code<'_, A>,
    object: &Object,
    access: &Access,
) -> Result<(), AllocError>
    ensures { OnOk result (line.new ≡ line.old ++ distance_text (object_named code.now object.now) (access_named access.now)) }
{
    // The clause alone names it.
    let _ = code;
    if access.address < object.address {
        line.put_count(object.address - access.address, b"byte")?;
        return line.put(b" before");
    }
    if object.contains(access.address, access.count) {
        return line.put(b"in");
    }
    put_behind(line, object.size, access.address - object.address)
}

fn made_of(kind: Kind) -> &'static [u8]
    ensures { result.now ≡ made_of kind }
{
    match kind {
        Kind::Stray => b", which is made of more than one address",
        Kind::Bounds | Kind::Stale | Kind::Cut => b", an address of which 32 bits were taken",
    }
}

/// What was meant.
fn put_meant<A: Allocator + Copy>(
    line: &mut Line<A>,
    code: &Code<'_, A>,
    access: &Access,
    doubt: &Doubt,
) -> Result<(), AllocError>
    ensures { OnOk result (line.new ≡ line.old ++ meant_text doubt.now.kind (access_named access.now) (option_map (object_named code.now) doubt.now.object)) }
{
    match &doubt.object {
        Some(object) => {
            put_distance(line, code, object, access)?;
            line.put(b" ")?;
            put_object(line, code, object)
        }
        None => line.put_all(&[
            Fragment::Bytes(b"through "),
            Fragment::Number(access.address),
            Fragment::Bytes(made_of(doubt.kind)),
        ]),
    }
}

/// What was hit.
fn put_hit<A: Allocator + Copy>(
    line: &mut Line<A>,
    code: &Code<'_, A>,
    hit: Hit,
) -> Result<(), AllocError>
    ensures { OnOk result (line.new ≡ line.old ++ hit_text (hit_named code.now hit)) }
{
    match hit {
        Hit::Into(kind, offset) => {
            line.put(b", into ")?;
            put_name(line, code, kind)?;
            line.put_all(&[Fragment::Bytes(b"+"), Fragment::Number(offset)])
        }
        Hit::Between => line.put(b", between objects"),
        Hit::Dead => line.put(b", in dead memory"),
    }
}

/// By which move, at which place, of which kind, and what was done.
fn put_head<A: Allocator + Copy>(
    line: &mut Line<A>,
    code: &Code<'_, A>,
    position: u64,
    place: Place,
    kind: Kind,
    action: Action,
) -> Result<(), AllocError>
    ensures { OnOk result (line.new ≡ line.old ++ head_text position (place_named code.now place) kind action) }
{
    line.put_all(&[
        Fragment::Bytes(b"#"),
        Fragment::Number(position),
        Fragment::Bytes(b" $"),
        Fragment::Bytes(function_name(code, place.func)),
        Fragment::Bytes(b" @"),
        Fragment::Bytes(label_name(code, place.func, place.block)),
        Fragment::Bytes(b" "),
        Fragment::Number(u64::from(place.index)),
        Fragment::Bytes(b"  "),
        Fragment::Bytes(kind_word(kind)),
        Fragment::Bytes(b": "),
        Fragment::Bytes(action_words(action)),
        Fragment::Bytes(b" "),
    ])
}

fn put_suspicion<A: Allocator + Copy>(
    line: &mut Line<A>,
    code: &Code<'_, A>,
    suspicion: &Suspicion,
) -> Result<(), AllocError>
    ensures { OnOk result (line.new ≡ line.old ++ suspicion_text (suspicion_named code.now suspicion.now)) }
{
    let Suspicion {
        position,
        place,
        access,
        doubt,
        hit,
    } = *suspicion;
    put_head(line, code, position, place, doubt.kind, access.action)?;
    put_meant(line, code, &access, &doubt)?;
    put_hit(line, code, hit)
}

/// How often it came, and the end of the line.
fn put_times<A: Allocator>(line: &mut Line<A>, count: u64) -> Result<(), AllocError>
    ensures { OnOk result (line.new ≡ line.old ++ times_text count) }
{
    if count <= 1 {
        return line.put(b"\n");
    }
    line.put_all(&[
        Fragment::Bytes(b"  ("),
        Fragment::Number(count),
        Fragment::Bytes(b" times)\n"),
    ])
}

/// The line of a note.
pub fn put_note<A: Allocator + Copy>(
    line: &mut Line<A>,
    code: &Code<'_, A>,
    note: &Note,
) -> Result<(), AllocError>
    ensures { OnOk result (line.new ≡ line.old ++ note_line (note_named code.now note.now)) }
{
    put_suspicion(line, code, &note.first)?;
    put_times(line, note.count)
}
