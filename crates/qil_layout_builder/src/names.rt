//! The addresses of all names of a program.

ghost use Rattle.std.specs.Prelude.{◌≡◌, ◌≤◌, ◌<◌, ◌+◌, List, ℕ, None, OnOk, IfOk, IfErr, length};
ghost use Rattle.std.specs.Option.{option_or};
ghost use Rattle.qil_layout.specs.Layout.{data_address, func_address, built_in_address, address_of, fault_from, fault_of};
ghost use Rattle.qil_symbols.specs.Tables.{value_at};
ghost use Rattle.qil_layout_builder.specs.Answer.{IsFault};

use crate::error::LayoutError;
use crate::place::span_of;
use qil_layout::{DATA_BASE, EXIT, FUNC_BASE, FUNC_STRIDE, PUTCHAR, PUTS};
use qil_symbols::Firsts;
use qil_tree::{Data, Func, Program};
use std::alloc::{AllocError, Allocator};
use std::hash::RandomState;

/// Notes the addresses of the data, or gives the first object that can't be laid out.
fn note_datas<'a, A: Allocator + Copy>(
    table: &mut Firsts<'a, u64, A>,
    datas: &[Data<'a, A>],
) -> Result<(), LayoutError>
    ensures recorded { OnOk result ((x : List ℕ) → value_at table.new.values x ≡ option_or (value_at table.old.values x) (data_address 65536 datas.now x)) }
    ensures no_fault { IfOk result (λ x. fault_from 65536 datas.now ≡ None) }
    ensures fault { IfErr result (IsFault (fault_from 65536 datas.now)) }
{
    let mut at = DATA_BASE;
    for object in datas {
        match span_of(at, object) {
            Ok(span) => {
                table.note(object.name.bytes(), span.start)?;
                at = span.end;
            }
            Err(code) => {
                return Err(LayoutError::Refused {
                    code,
                    line: object.line,
                });
            }
        }
    }
    Ok(())
}

/// Notes the addresses of the functions.
fn note_funcs<'a, A: Allocator + Copy>(
    table: &mut Firsts<'a, u64, A>,
    funcs: &[Func<'a, A>],
) -> Result<(), AllocError>
    requires { length funcs.now ≤ 65535 }
    ensures { OnOk result ((x : List ℕ) → value_at table.new.values x ≡ option_or (value_at table.old.values x) (func_address 4096 funcs.now x)) }
{
    let mut at = FUNC_BASE;
    for func in funcs {
        table.note(func.name.bytes(), at)?;
        at += FUNC_STRIDE;
    }
    Ok(())
}

/// Notes the addresses of the functions that every program has.
fn note_built_ins<'a, A: Allocator + Copy>(table: &mut Firsts<'a, u64, A>) -> Result<(), AllocError>
    ensures { OnOk result ((x : List ℕ) → value_at table.new.values x ≡ option_or (value_at table.old.values x) (built_in_address x)) }
{
    table.note(b"putchar", PUTCHAR)?;
    table.note(b"puts", PUTS)?;
    table.note(b"exit", EXIT)?;
    Ok(())
}

/// The address of each name of a program, or the first object that can't be laid out.
pub fn names_of<'a, A: Allocator + Copy>(
    alloc: A,
    keys: RandomState,
    program: &Program<'a, A>,
) -> Result<Firsts<'a, u64, A>, LayoutError>
    requires { length program.now.funcs ≤ 65535 }
    ensures addresses { IfOk result (λ t. (x : List ℕ) → value_at t.values x ≡ address_of program.now x) }
    ensures no_fault { IfOk result (λ t. fault_of program.now ≡ None) }
    ensures fault { IfErr result (IsFault (fault_of program.now)) }
{
    let mut table = Firsts::new(alloc, keys);
    note_datas(&mut table, program.datas.as_slice())?;
    note_funcs(&mut table, program.funcs.as_slice())?;
    note_built_ins(&mut table)?;
    Ok(table)
}
