//! The objects of names.

ghost use Rattle.std.specs.Prelude.{◌≡◌, ◌+◌, List, ℕ, length, IfOk, OnOk};
ghost use Rattle.std.specs.Option.{option_or};
ghost use Rattle.qil_symbols.specs.Tables.{value_at};
ghost use Rattle.qil_shadow.specs.Objects.{object_named};
ghost use Rattle.qil_shadow.specs.ObjectNumbers.{data_number, function_number, built_in_number};

use crate::origin::ObjectId;
use qil_symbols::Firsts;
use qil_tree::{Data, Func, Program};
use std::alloc::{AllocError, Allocator};
use std::hash::RandomState;
use std::marker::Model;

/// The number behind one.
///
/// # Errors
///
/// Where it would be 2^32.
pub(crate) fn number_after(number: u32) -> Result<u32, AllocError>
    ensures { IfOk result (λ n. n ≡ number + 1) }
{
    if number >= 4_294_967_295 {
        return Err(AllocError);
    }
    Ok(number + 1)
}

/// Notes the numbers of the data, and gives the next.
fn note_datas<'a, A: Allocator + Copy>(
    table: &mut Firsts<'a, u32, A>,
    datas: &[Data<'a, A>],
) -> Result<u32, AllocError>
    ensures recorded { OnOk result ((x : List ℕ) → value_at table.new.values x ≡ option_or (value_at table.old.values x) (data_number 0 datas.now x)) }
    ensures next { IfOk result (λ n. n ≡ length datas.now) }
{
    let mut number = 0;
    for object in datas {
        table.note(object.name.bytes(), number)?;
        number = number_after(number)?;
    }
    Ok(number)
}

/// Notes the numbers of the functions, from one on, and gives the next.
fn note_funcs<'a, A: Allocator + Copy>(
    table: &mut Firsts<'a, u32, A>,
    first: u32,
    funcs: &[Func<'a, A>],
) -> Result<u32, AllocError>
    ensures recorded { OnOk result ((x : List ℕ) → value_at table.new.values x ≡ option_or (value_at table.old.values x) (function_number first funcs.now x)) }
    ensures next { IfOk result (λ n. n ≡ first + length funcs.now) }
{
    let mut number = first;
    for func in funcs {
        table.note(func.name.bytes(), number)?;
        number = number_after(number)?;
    }
    Ok(number)
}

/// Notes the numbers of the functions that every program has, from one on.
fn note_built_ins<'a, A: Allocator + Copy>(
    table: &mut Firsts<'a, u32, A>,
    first: u32,
) -> Result<(), AllocError>
    ensures { OnOk result ((x : List ℕ) → value_at table.new.values x ≡ option_or (value_at table.old.values x) (built_in_number first x)) }
{
    let second = number_after(first)?;
    let third = number_after(second)?;
    table.note(b"putchar", first)?;
    table.note(b"puts", second)?;
    table.note(b"exit", third)?;
    Ok(())
}

/// The numbers of the objects of a program's names. Specifications see the program.
#[derive(Drop)]
pub struct ObjectNames<'c, A: Allocator> {
    program: &'c Program<'c, A>,
    numbers: Firsts<'c, u32, A>,
}

impl<'c, A: Allocator> Model for ObjectNames<'c, A> {
    ghost use Rattle.std.specs.Prelude.{◌≡◌, List, ℕ};
    ghost use Rattle.qil_tree.specs.declared.tree.Program.{Program};
    ghost use Rattle.qil_symbols.specs.Numbers.{place_of};
    ghost use Rattle.qil_symbols.specs.Tables.{value_at};
    ghost use Rattle.qil_shadow.specs.Objects.{object_names};

    ghost Value = { Program A };

    ghost view = { λ n. n.program.now };

    ghost invariant = { λ n. (x : List ℕ) → value_at n.numbers.values x ≡ place_of (object_names n.program.now) x };
}

impl<'c, A: Allocator + Copy> ObjectNames<'c, A> {
    /// Those of a program.
    ///
    /// # Errors
    ///
    /// Out of memory, and where there would be 2^32.
    pub fn new(
        alloc: A,
        keys: RandomState,
        program: &'c Program<'c, A>,
    ) -> Result<ObjectNames<'c, A>, AllocError>
        ensures { IfOk result (λ n. n ≡ program.now) }
    {
        let mut numbers = Firsts::new(alloc, keys);
        let functions = note_datas(&mut numbers, program.datas.as_slice())?;
        let built_ins = note_funcs(&mut numbers, functions, program.funcs.as_slice())?;
        note_built_ins(&mut numbers, built_ins)?;
        Ok(ObjectNames { program, numbers })
    }

    /// The object of a name.
    pub fn object(&self, name: &[u8]) -> ObjectId
        ensures { result ≡ object_named self.now name.now }
    {
        match self.numbers.get(name) {
            Some(index) => ObjectId { index },
            None => ObjectId { index: 0 },
        }
    }
}
