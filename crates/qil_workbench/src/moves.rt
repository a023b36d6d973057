//! What the records of a run's moves keep and weigh.

use crate::answer::{Answer, reported};
use crate::record::kind_of;
use crate::started::started;
use qil_code::{Code, NumberedInst, NumberedOperand, Slot};
use qil_frames::Frame;
use qil_machine::{Machine, MoveError, PokeError, UndoRecord};
use qil_memory::{DATA_BASE, Saved};
use std::alloc::{Allocator, Global};
use std::mem::size_of;

/// The most moves that are reported.
const MOST: u32 = 1_000_000;

/// Tells what a record keeps and weighs; whether that was written.
fn is_told<R: Print, A: Allocator + Copy>(rt: &R, undo_record: UndoRecord<A>) -> bool {
    let weight = undo_record.weight();
    let kind = kind_of(undo_record.into_kind());
    println!(rt; "{kind}: weight {weight}").is_ok()
}

/// Tells of a poke, if it was made.
fn is_poke_told<R: Print, A: Allocator + Copy>(
    rt: &R,
    poke: Result<UndoRecord<A>, PokeError>,
) -> bool {
    match poke {
        Ok(undo_record) => is_told(rt, undo_record),
        Err(_) => true,
    }
}

/// Sets the first temporary and the first four bytes of the data, where they are there.
fn are_pokes_told<R: Print, A: Allocator + Copy>(machine: &mut Machine<'_, A>, rt: &R) -> bool {
    is_poke_told(rt, machine.poke_temp(Slot { index: 0 }, 7))
        && is_poke_told(rt, machine.poke_memory(DATA_BASE, 4, u64::MAX))
}

/// Tells of a move, which has to be made.
fn is_made_told<R: Print, A: Allocator + Copy>(
    rt: &R,
    made: Result<UndoRecord<A>, MoveError>,
) -> bool {
    match made {
        Ok(undo_record) => is_told(rt, undo_record),
        Err(_) => false,
    }
}

/// Makes a move, and reports it.
fn is_move_told<R: Print, A: Allocator + Copy>(machine: &mut Machine<'_, A>, rt: &R) -> bool {
    is_made_told(rt, machine.advance())
}

/// Tells of each move of a machine, up to the end of its run.
fn are_moves_told<R: Print, A: Allocator + Copy>(machine: &mut Machine<'_, A>, rt: &R) -> bool {
    for _ in 0..MOST {
        if machine.is_final() {
            return true;
        }
        if !is_move_told(machine, rt) {
            return false;
        }
    }
    false
}

/// Tells how many bytes a record takes, what it keeps of bytes, a frame's handle, an operand and an instruction.
fn are_sizes_told<R: Print>(rt: &R) -> bool {
    let record = size_of::<UndoRecord<Global>>();
    let kept = size_of::<Saved<Global>>();
    let frame = size_of::<Frame<Global>>();
    let operand = size_of::<NumberedOperand>();
    let inst = size_of::<NumberedInst<Global>>();
    println!(rt;
        "bytes: record {record}, kept bytes {kept}, frame {frame}, operand {operand}, instruction {inst}"
    ).is_ok()
}

/// Tells of a run from its start on.
fn is_run_told<R: Print, A: Allocator + Copy>(machine: &mut Machine<'_, A>, rt: &R) -> bool {
    are_sizes_told(rt) && are_pokes_told(machine, rt) && are_moves_told(machine, rt)
}

/// Tells of a start, of pokes there, and of each move after it, up to the end of the run.
pub fn each_move<R: Print, A: Allocator + Copy>(code: &Code<'_, A>, rt: &R, alloc: A) -> Answer {
    match started(alloc, code) {
        Ok(mut machine) => reported(is_run_told(&mut machine, rt)),
        Err(answer) => answer,
    }
}
