//! Pokes of all kinds as one, so that each history has one way to keep them.

ghost use Rattle.std.specs.Prelude.{◌≡◌, ◌≢◌, ◌≤◌, Ok, Err, IfOk, IfErr, OnOk, OnErr};
ghost use Rattle.qil_machine.specs.qil_state.State.{state_of};
ghost use Rattle.qil_machine.specs.Moves.{weight};
ghost use Rattle.qil_machine.specs.Places.{Made};
ghost use Rattle.qil_history.specs.Pokes.{HasWidth, poke_of, poke_cost, Explains};

use qil_machine::{Machine, PokeError, Slot, UndoRecord};
use std::alloc::Allocator;

/// A poke to apply.
#[derive(Drop)]
pub enum Poke<'n> {
    /// A slot of the innermost frame, and the value.
    Slot(Slot, u64),
    /// The name of a temporary, and the value.
    Named(&'n [u8], u64),
    /// An address, how many bytes, and their number.
    Bytes(u64, u64, u64),
}

/// Pokes a machine: what `Machine::undo` takes to go back. It takes no memory.
pub fn apply_poke<'c, A: Allocator + Copy>(
    machine: &mut Machine<'c, A>,
    poke: Poke<'_>,
) -> Result<UndoRecord<A>, PokeError>
    requires { HasWidth poke }
    ensures poke { OnOk result (poke_of machine.old.program (state_of machine.old) poke.entry ≡ Ok (state_of machine.new)) }
    ensures made { IfOk result (λ d. Made d machine.old machine.new) }
    ensures cost { IfOk result (λ d. weight d ≤ poke_cost poke.entry) }
    ensures why { IfErr result (Explains (poke_of machine.old.program (state_of machine.old) poke.entry)) }
    ensures memory { result ≢ Err PokeError.OutOfMemory }
    ensures err { OnErr result (machine.new ≡ machine.old) }
{
    match poke {
        Poke::Slot(slot, value) => machine.poke_temp(slot, value),
        Poke::Named(name, value) => machine.poke_named(name, value),
        Poke::Bytes(address, width, number) => machine.poke_memory(address, width, number),
    }
}

/// Why it isn't kept as a move where there is no memory for that: what refuses it, or out of memory. The machine stays.
pub fn poke_refusal<'c, A: Allocator + Copy>(
    machine: &mut Machine<'c, A>,
    poke: Poke<'_>,
) -> PokeError
    requires { HasWidth poke }
    ensures why { Explains (poke_of machine.old.program (state_of machine.old) poke.entry) result }
    ensures machine { machine.new ≡ machine.old }
{
    match apply_poke(machine, poke) {
        Ok(undo_record) => {
            machine.undo(undo_record);
            PokeError::OutOfMemory
        }
        Err(error) => error,
    }
}
