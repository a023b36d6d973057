//! What the phis of a block do, by the label of the block that is left: each phi's sources are looked at once.

ghost use Rattle.std.specs.Prelude.{◌≡◌, ◌++◌, List, ℕ, IfOk, OnOk};
ghost use Rattle.std.specs.List.{flat_map};
ghost use Rattle.qil_symbols.specs.Tables.{values_at};
ghost use Rattle.qil_code.specs.Numbered.{one_phi_moves, block_moves};
ghost use Rattle.qil_code.specs.Moves.{source_moves};

use crate::resolve::Resolver;
use qil_code::PhiMove;
use qil_symbols::Groups;
use qil_tree::{Block, Phi, PhiSource, Target};
use std::alloc::{AllocError, Allocator};
use std::hash::RandomState;

fn note_sources<'a, A: Allocator + Copy>(
    alloc: A,
    resolver: &Resolver<'_, 'a, A>,
    table: &mut Groups<'a, PhiMove, A>,
    target: &Target<'a>,
    sources: &[PhiSource<'a>],
) -> Result<(), AllocError>
    ensures { OnOk result ((x : List ℕ) → values_at table.new.lists x ≡ values_at table.old.lists x ++ source_moves resolver.now.image.now resolver.now.temps.now x target.now sources.now) }
{
    for source in sources {
        let one = resolver.phi_move(target, &source.value);
        table.note(alloc, source.label.bytes(), one)?;
    }
    Ok(())
}

fn note_phi<'a, A: Allocator + Copy>(
    alloc: A,
    resolver: &Resolver<'_, 'a, A>,
    table: &mut Groups<'a, PhiMove, A>,
    phi: &Phi<'a, A>,
) -> Result<(), AllocError>
    ensures { OnOk result ((x : List ℕ) → values_at table.new.lists x ≡ values_at table.old.lists x ++ one_phi_moves resolver.now.image.now resolver.now.temps.now x phi.now) }
{
    note_sources(alloc, resolver, table, &phi.target, phi.sources.as_slice())
}

/// What the phis of a block do, for each block that may be left.
pub fn moves_of<'a, A: Allocator + Copy>(
    alloc: A,
    keys: RandomState,
    resolver: &Resolver<'_, 'a, A>,
    block: &Block<'a, A>,
) -> Result<Groups<'a, PhiMove, A>, AllocError>
    ensures { IfOk result (λ table. (x : List ℕ) → values_at table.lists x ≡ block_moves resolver.now.image.now resolver.now.temps.now x block.now) }
{
    let mut table = Groups::new(alloc, keys);
    for phi in block.phis.as_slice() {
        note_phi(alloc, resolver, &mut table, phi)?;
    }
    Ok(table)
}
