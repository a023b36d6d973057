//! Edges of the shadow: what the phis of a block get where another is left for it.

ghost use Rattle.std.specs.Prelude.{◌≡◌, ℕ, List, [], ◌∷◌, ◌++◌, Some, slice_get, OnOk};
ghost use Rattle.qil_tree.specs.declared.tree.Operand.{Operand};
ghost use Rattle.qil_tree.specs.declared.tree.Block.{Block};
ghost use Rattle.qil_tree.specs.declared.tree.Func.{Func};
ghost use Rattle.qil_semantics.specs.State.{Frame};
ghost use Rattle.qil_code.specs.Numbered.{names_of};
ghost use Rattle.qil_shadow.specs.Shadowed.{operand_origin, goes};
ghost use Rattle.qil_shadow.specs.Numbered.{frames_by};
ghost use Rattle.qil_shadow.specs.Reads.{IsFor, innermost};
ghost use Rattle.qil_shadow.specs.Kept.{KeepsAll, KeepsButCalls};
ghost use Rattle.qil_shadow.specs.Instructions.{named, IsAt};
ghost use Rattle.qil_shadow.specs.Moves.{with_all};
ghost use Rattle.qil_shadow.specs.Phis.{phi_read, IsEdge, moves_from, got_by, AreAlike};
ghost use Rattle.qil_shadow.specs.Stack.{callers_of};

use crate::shadow::Shadow;
use crate::suspicion::Place;
use qil_code::{BlockId, Code, Edge, PhiMove};
use std::alloc::{AllocError, Allocator};

impl<'c, A: Allocator + Copy> Shadow<'c, A> {
    /// Goes along an edge.
    #[inline(always)]
    pub(crate) fn take_edge(
        &mut self,
        code: &Code<'c, A>,
        place: Place,
        edge: &Edge<A>,
    ) -> Result<(), AllocError>
        ensures named { OnOk result ((f : Frame) (fs : List ℕ) (func : Func A) (left target : Block A) (l : List ℕ) → IsEdge code.now place edge.now.to edge.now.moves func left target l → f.label ≡ left.label → IsAt code.now place self.old
            → named code.now (place.func.index ∷ fs) self.new
            ≡ goes code.now f (named code.now (place.func.index ∷ fs) self.old) (innermost code.now place.func.index self.old.calls.calls) (frames_by code.now fs (callers_of self.old.calls.calls)) func l) }
        ensures alike { OnOk result (AreAlike self.old.calls self.new.calls) }
        ensures rest { OnOk result (KeepsButCalls self.old self.new) }
    {
        match edge.moves.as_slice() {
            [] => Ok(()),
            [only] => {
                self.do_phi(code, place, edge.to, only);
                Ok(())
            }
            [first, second] => {
                self.do_two_phis(code, place, edge.to, first, second);
                Ok(())
            }
            moves => {
                self.do_phis(code, place, edge.to, moves)?;
                Ok(())
            }
        }
    }

    /// Does the only phi of a block.
    #[inline(always)]
    fn do_phi(&mut self, code: &Code<'c, A>, place: Place, to: BlockId, only: &PhiMove)
        ensures calls { (func : Func A) (left target : Block A) (l : List ℕ) → IsEdge code.now place to (only.now ∷ []) func left target l → IsAt code.now place self.old
            → self.new.calls ≡ with_all (got_by code.now (names_of code.now place.func.index) (innermost code.now place.func.index self.old.calls.calls) (moves_from left target)) self.old.calls }
        ensures alike { AreAlike self.old.calls self.new.calls }
        ensures rest { KeepsButCalls self.old self.new }
    {
        let origin = self.phi_origin(code, place, to, 0, only);
        let open = self.phi_open(only);
        self.calls.set(only.target, origin);
        self.open.set(only.target, open);
    }

    /// Does the two phis of a block: both are read before one is written.
    #[inline(always)]
    fn do_two_phis(
        &mut self,
        code: &Code<'c, A>,
        place: Place,
        to: BlockId,
        first: &PhiMove,
        second: &PhiMove,
    )
        ensures calls { (func : Func A) (left target : Block A) (l : List ℕ) → IsEdge code.now place to (first.now ∷ (second.now ∷ [])) func left target l → IsAt code.now place self.old
            → self.new.calls ≡ with_all (got_by code.now (names_of code.now place.func.index) (innermost code.now place.func.index self.old.calls.calls) (moves_from left target)) self.old.calls }
        ensures alike { AreAlike self.old.calls self.new.calls }
        ensures rest { KeepsButCalls self.old self.new }
    {
        let origin = self.phi_origin(code, place, to, 0, first);
        let other = self.phi_origin(code, place, to, 1, second);
        let open = self.phi_open(first);
        let other_open = self.phi_open(second);
        self.calls.set(first.target, origin);
        self.calls.set(second.target, other);
        self.open.set(first.target, open);
        self.open.set(second.target, other_open);
    }

    /// Does the phis of a block: all are read before one is written.
    fn do_phis(
        &mut self,
        code: &Code<'c, A>,
        place: Place,
        to: BlockId,
        moves: &[PhiMove],
    ) -> Result<(), AllocError>
        ensures calls { OnOk result ((func : Func A) (left target : Block A) (l : List ℕ) → IsEdge code.now place to moves.now func left target l → IsAt code.now place self.old
            → self.new.calls ≡ with_all (got_by code.now (names_of code.now place.func.index) (innermost code.now place.func.index self.old.calls.calls) (moves_from left target)) self.old.calls) }
        ensures alike { OnOk result (AreAlike self.old.calls self.new.calls) }
        ensures rest { OnOk result (KeepsButCalls self.old self.new) }
    {
        self.moved.truncate(0);
        for (index, one) in moves.iter().enumerate() {
            self.gather_phi(code, place, to, index, one)?;
        }
        self.put_moved();
        Ok(())
    }

    /// Gathers what the phi of a number gets.
    #[inline(always)]
    fn gather_phi(
        &mut self,
        code: &Code<'c, A>,
        place: Place,
        to: BlockId,
        index: usize,
        one: &PhiMove,
    ) -> Result<(), AllocError>
        ensures moved { OnOk result ((a : Operand) → IsAt code.now place self.old → phi_read code.now place to.index index ≡ Some a → IsFor code.now (names_of code.now place.func.index) a one.now.source
            → self.new.moved.items ≡ self.old.moved.items ++ (one.now.target, operand_origin code.now (innermost code.now place.func.index self.old.calls.calls) one.now.class a) ∷ []) }
        ensures rest { OnOk result (KeepsAll self.old self.new) }
    {
        let origin = self.phi_origin(code, place, to, index, one);
        self.moved.push((one.target, origin))?;
        let open = self.phi_open(one);
        self.open.gather(one.target, open)?;
        Ok(())
    }
}
