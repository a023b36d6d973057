//! The shadow at the start of a run.

ghost use Rattle.std.specs.Prelude.{◌≡◌, ◌+◌, ◌-◌, ◌≤◌, None, Some, List, [], ◌∷◌, ◌++◌, length, map, replicate, IfOk, OnOk};
ghost use Rattle.std.specs.List.{flat_map, sum_by};
ghost use Rattle.qil_tree.specs.declared.tree.Func.{Func};
ghost use Rattle.qil_tree.specs.declared.tree.Program.{Program};
ghost use Rattle.qil_memory.specs.qil_layout.Layout.{data_base, data_limit, item_size, field_size, size_of, start_of, end_of, object_fault, fault_from};
ghost use Rattle.qil_memory.specs.Buffers.{stack_base};
ghost use Rattle.qil_code.specs.Numbered.{func_at};
ghost use Rattle.qil_shadow.specs.Objects.{object_named, data_objects, function_objects, built_in_objects};
ghost use Rattle.qil_shadow.specs.Bytes.{laid_origins};
ghost use Rattle.qil_shadow.specs.Shadow.{none_set, with_origins, all_numbers, item_origins, field_origins, data_origins_from, given, shadow_at_start};
ghost use Rattle.qil_shadow.specs.Spots.{origins_in};
ghost use Rattle.qil_shadow.specs.Table.{no_objects, with_data};
ghost use Rattle.qil_shadow.specs.ObjectNumbers.{data_starts, AreStarts};
ghost use Rattle.qil_shadow.specs.Numbered as Numbered;
ghost use Rattle.qil_shadow.specs.Numbered.{frames_by, shadow_by};
ghost use Rattle.qil_shadow.specs.Starting.{fixed, HasNoted, IsOf};
ghost use Rattle.qil_shadow.specs.Shapes.{shapes_of, first_shape};

use crate::calls::Calls;
use crate::heap::Heap;
use crate::memory::OriginMemory;
use crate::names::{ObjectNames, number_after};
use crate::object::{BuiltIn, Object, ObjectKind, Objects};
use crate::open_bits::OpenBits;
use crate::origin::{ByteOrigin, Origin};
use crate::shadow::Shadow;
use crate::stack::OriginStack;
use qil_code::{Code, byte_count};
use qil_layout::{DATA_BASE, FuncId, rounded_up};
use qil_memory::STACK_BASE;
use qil_tree::{AbiType, Data, Field, Item, Width};
use std::alloc::{AllocError, Allocator};
use std::hash::RandomState;

/// No program has more functions.
const MOST_FUNCTIONS: usize = 1_000;

/// An object that is there from the start on.
fn fixed(kind: ObjectKind, address: u64, size: u64) -> Object
    ensures { result ≡ fixed kind address size }
{
    Object {
        kind,
        address,
        size,
        made: 0,
        depth: 0,
        ended: None,
    }
}

/// The address behind an item that begins at one; what it is made of is noted, if it is an address.
fn note_item<'c, A: Allocator + Copy>(
    memory: &mut OriginMemory<A>,
    names: &ObjectNames<'c, A>,
    at: u64,
    width: Width,
    item: &Item<'_, A>,
) -> u64
    requires low { data_base ≤ at }
    requires fits { at + item_size width item.now ≤ data_limit }
    ensures next { result ≡ at + item_size width item.now }
    ensures noted { (bs : List ByteOrigin) → HasNoted bs at (origins_in memory.old) → HasNoted (bs ++ item_origins (object_named names.now) width item.now) result (origins_in memory.new) }
{
    match item {
        Item::Number(_) => at + byte_count(width),
        Item::Text(text) => at + text.as_slice().len() as u64,
        Item::Address(name, _) => {
            let object = names.object(name.bytes());
            memory.store(at, byte_count(width), Origin::Address(object));
            at + byte_count(width)
        }
    }
}

/// The same of items in a row.
fn note_items<'c, A: Allocator + Copy>(
    memory: &mut OriginMemory<A>,
    names: &ObjectNames<'c, A>,
    begin: u64,
    width: Width,
    items: &[Item<'_, A>],
) -> u64
    requires low { data_base ≤ begin }
    requires fits { begin + sum_by (item_size width) items.now ≤ data_limit }
    ensures next { result ≡ begin + sum_by (item_size width) items.now }
    ensures noted { (bs : List ByteOrigin) → HasNoted bs begin (origins_in memory.old) → HasNoted (bs ++ flat_map (item_origins (object_named names.now) width) items.now) result (origins_in memory.new) }
{
    let mut at = begin;
    for item in items {
        at = note_item(memory, names, at, width, item);
    }
    at
}

/// The same of a field.
fn note_field<'c, A: Allocator + Copy>(
    memory: &mut OriginMemory<A>,
    names: &ObjectNames<'c, A>,
    begin: u64,
    field: &Field<'_, A>,
) -> u64
    requires low { data_base ≤ begin }
    requires fits { begin + field_size field.now ≤ data_limit }
    ensures next { result ≡ begin + field_size field.now }
    ensures noted { (bs : List ByteOrigin) → HasNoted bs begin (origins_in memory.old) → HasNoted (bs ++ field_origins (object_named names.now) field.now) result (origins_in memory.new) }
{
    match field {
        Field::Zeros(count) => begin + *count,
        Field::Values(width, items) => note_items(memory, names, begin, *width, items.as_slice()),
    }
}

/// The same of fields in a row.
fn note_fields<'c, A: Allocator + Copy>(
    memory: &mut OriginMemory<A>,
    names: &ObjectNames<'c, A>,
    begin: u64,
    fields: &[Field<'_, A>],
) -> u64
    requires low { data_base ≤ begin }
    requires fits { begin + sum_by field_size fields.now ≤ data_limit }
    ensures next { result ≡ begin + sum_by field_size fields.now }
    ensures noted { (bs : List ByteOrigin) → HasNoted bs begin (origins_in memory.old) → HasNoted (bs ++ flat_map (field_origins (object_named names.now)) fields.now) result (origins_in memory.new) }
{
    let mut at = begin;
    for field in fields {
        at = note_field(memory, names, at, field);
    }
    at
}

/// Where an object of the data begins that comes at an address or after it.
fn start_of<A: Allocator + Copy>(at: u64, object: &Data<'_, A>) -> u64
    requires low { at ≤ data_limit }
    requires fits { object_fault at object.now ≡ None }
    ensures start { result ≡ start_of at object.now }
    ensures high { at ≤ result }
    ensures room { result + size_of object.now ≤ data_limit }
{
    rounded_up(object.align.unwrap_or(16), at)
}

/// Notes an object of the data that comes at an address or after it, and gives the address behind it.
fn note_object<'c, A: Allocator + Copy>(
    memory: &mut OriginMemory<A>,
    objects: &mut Objects<A>,
    names: &ObjectNames<'c, A>,
    index: u32,
    at: u64,
    object: &Data<'_, A>,
) -> Result<u64, AllocError>
    requires first { objects.old.fixed ≡ length objects.old.objects }
    requires low { data_base ≤ at }
    requires high { at ≤ data_limit }
    requires fits { object_fault at object.now ≡ None }
    ensures made { OnOk result (objects.new ≡ with_data objects.old (fixed (ObjectKind.Data index) (start_of at object.now) (size_of object.now))) }
    ensures next { IfOk result (λ end. (end ≡ end_of at object.now) × (end ≤ data_limit)) }
    ensures noted { IfOk result (λ end. (bs : List ByteOrigin) → HasNoted bs at (origins_in memory.old)
        → HasNoted (bs ++ (replicate (start_of at object.now - at) ByteOrigin.Number ++ flat_map (field_origins (object_named names.now)) object.now.fields)) end (origins_in memory.new)) }
{
    let begin = start_of(at, object);
    let end = note_fields(memory, names, begin, object.fields.as_slice());
    objects.add_data(fixed(ObjectKind::Data(index), begin, end - begin))?;
    Ok(end)
}

/// Notes the data of a program.
fn note_datas<'c, A: Allocator + Copy>(
    memory: &mut OriginMemory<A>,
    objects: &mut Objects<A>,
    names: &ObjectNames<'c, A>,
    datas: &[Data<'_, A>],
) -> Result<(), AllocError>
    requires laid { fault_from data_base datas.now ≡ None }
    requires first { objects.old ≡ no_objects }
    requires fresh { origins_in memory.old ≡ all_numbers }
    ensures fixed { OnOk result (objects.new.fixed ≡ length objects.new.objects) }
    ensures starts { OnOk result (objects.new.starts ≡ data_starts data_base datas.now) }
    ensures objects { (p : Program A) → p.datas ≡ datas.now → OnOk result (map (Numbered.object_named p) objects.new.objects ≡ data_objects data_base datas.now) }
    ensures noted { OnOk result (origins_in memory.new ≡ laid_origins all_numbers data_base (data_origins_from (object_named names.now) data_base datas.now)) }
{
    let mut number: u32 = 0;
    let mut at = DATA_BASE;
    for object in datas {
        at = note_object(memory, objects, names, number, at, object)?;
        number = number_after(number)?;
    }
    Ok(())
}

/// Notes the functions that every program has.
fn note_built_ins<A: Allocator + Copy>(objects: &mut Objects<A>) -> Result<(), AllocError>
    requires first { objects.old.fixed ≡ length objects.old.objects }
    ensures fixed { OnOk result (objects.new.fixed ≡ length objects.new.objects) }
    ensures starts { OnOk result (objects.new.starts ≡ objects.old.starts) }
    ensures objects { (p : Program A) → OnOk result (map (Numbered.object_named p) objects.new.objects ≡ map (Numbered.object_named p) objects.old.objects ++ built_in_objects) }
{
    objects.add_fixed(fixed(ObjectKind::BuiltIn(BuiltIn::PutChar), 1024, 0))?;
    objects.add_fixed(fixed(ObjectKind::BuiltIn(BuiltIn::Puts), 1040, 0))?;
    objects.add_fixed(fixed(ObjectKind::BuiltIn(BuiltIn::Exit), 1056, 0))?;
    Ok(())
}

/// Notes the functions of a program, and those that every program has.
fn note_functions<A: Allocator + Copy>(
    objects: &mut Objects<A>,
    count: usize,
) -> Result<(), AllocError>
    requires first { objects.old.fixed ≡ length objects.old.objects }
    requires few { count ≤ 1000 }
    ensures fixed { OnOk result (objects.new.fixed ≡ length objects.new.objects) }
    ensures starts { OnOk result (objects.new.starts ≡ objects.old.starts) }
    ensures objects { (p : Program A) → length p.funcs ≡ count → OnOk result (map (Numbered.object_named p) objects.new.objects ≡ map (Numbered.object_named p) objects.old.objects ++ (function_objects 4096 p.funcs ++ built_in_objects)) }
{
    for index in 0..count {
        let func = FuncId {
            index: index as u16,
        };
        objects.add_fixed(fixed(ObjectKind::Func(func), 4096 + 16 * index as u64, 0))?;
    }
    note_built_ins(objects)?;
    Ok(())
}

/// What a parameter of the function that runs first is made of: a long one may be an address of anything.
fn given(abi_type: AbiType) -> Origin
    ensures { result ≡ given abi_type }
{
    match abi_type {
        AbiType::L => Origin::Mixed,
        AbiType::W | AbiType::Sb | AbiType::Ub | AbiType::Sh | AbiType::Uh => Origin::Number,
    }
}

/// What the temporaries of the function that runs first are made of.
fn first_call<'c, A: Allocator + Copy>(
    alloc: A,
    code: &Code<'c, A>,
    func: FuncId,
) -> Result<OriginStack<A>, AllocError>
    ensures one { IfOk result (λ calls. length calls ≡ 1) }
    ensures lies { IfOk result (λ calls. shapes_of calls ≡ first_shape code.now func.index ∷ []) }
    ensures frames { IfOk result (λ calls. (f : Func A) → func_at code.now func.index ≡ Some f
        → frames_by code.now (func.index ∷ []) calls ≡ with_origins none_set (map (λ q. (q.name, given q.abi_type)) f.params) ∷ []) }
{
    let mut origins = OriginStack::new(alloc, code.slot_count(func), STACK_BASE)?;
    for param in code.params(func) {
        let (slot, abi_type) = *param;
        origins.set(slot, given(abi_type));
    }
    Ok(origins)
}

/// The calls and the objects at the start of a function; what the bytes of the data are made of is noted.
fn calls_at_start<'c, A: Allocator + Copy>(
    alloc: A,
    code: &Code<'c, A>,
    names: &ObjectNames<'c, A>,
    memory: &mut OriginMemory<A>,
    func: FuncId,
) -> Result<Calls<A>, AllocError>
    requires own { names.now ≡ code.now }
    requires fresh { origins_in memory.old ≡ all_numbers }
    ensures start { IfOk result (λ calls. (f : Func A) → func_at code.now func.index ≡ Some f
        → shadow_by code.now (func.index ∷ []) calls.calls memory.new calls.objects.objects 0 ≡ shadow_at_start code.now f) }
    ensures starts { IfOk result (λ calls. AreStarts code.now calls.objects.starts) }
    ensures top { IfOk result (λ calls. calls.top ≡ stack_base) }
    ensures lies { IfOk result (λ calls. shapes_of calls.calls ≡ first_shape code.now func.index ∷ []) }
{
    let program = code.program();
    let _ = code.image().bytes();
    let count = program.funcs.as_slice().len();
    if count > MOST_FUNCTIONS {
        return Err(AllocError);
    }
    let mut objects = Objects::new(alloc);
    note_datas(memory, &mut objects, names, program.datas.as_slice())?;
    note_functions(&mut objects, count)?;
    let origins = first_call(alloc, code, func)?;
    let calls = Calls::new(origins, objects);
    Ok(calls)
}

impl<'c, A: Allocator + Copy> Shadow<'c, A> {
    /// The shadow at the start of a function of a program, without a heap.
    ///
    /// # Errors
    ///
    /// Out of memory, and where there are more functions than a code has.
    pub fn start(
        alloc: A,
        keys: RandomState,
        code: &Code<'c, A>,
        func: FuncId,
    ) -> Result<Shadow<'c, A>, AllocError>
        ensures start { IfOk result (λ s. (f : Func A) → func_at code.now func.index ≡ Some f
            → shadow_by code.now (func.index ∷ []) s.calls.calls s.memory s.calls.objects.objects s.position ≡ shadow_at_start code.now f) }
        ensures own { IfOk result (λ s. IsOf code.now s.names s.calls.objects.starts s.data_end) }
        ensures lies { IfOk result (λ s. shapes_of s.calls.calls ≡ first_shape code.now func.index ∷ []) }
        ensures rest { IfOk result (λ s. (s.calls.top ≡ stack_base) × (s.found.items ≡ []) × (s.heap.roles.items ≡ [])) }
    {
        let names = ObjectNames::new(alloc, keys, code.program())?;
        let data_end = DATA_BASE + code.image().bytes().len() as u64;
        let mut memory = OriginMemory::new(alloc)?;
        let calls = calls_at_start(alloc, code, &names, &mut memory, func)?;
        Ok(Shadow {
            calls,
            memory,
            names,
            data_end,
            position: 0,
            moved: Vec::new(alloc),
            found: Vec::new(alloc),
            open: OpenBits::new(alloc, code.slot_count(func))?,
            heap: Heap::new(alloc),
            text: None,
        })
    }
}
