//! Where undo records go: into the hands of a caller, onto the end of a list, or wherever else one can be taken.

ghost use Rattle.std.specs.Prelude.{◌≡◌, ◌<◌, [], ◌∷◌, ◌++◌, Some, None, OnErr, vec_len, vec_capacity};
ghost use Rattle.qil_machine.specs.Places.{IsPassedOn};

use crate::error::StepError;
use crate::undo_record::UndoRecord;
use std::alloc::Allocator;

/// Something that takes an item, and has room for it. From which one to which other it comes by an item, `takes` says.
pub trait UndoSink<T> {
    ghost takes: { Self → Self → T → Type 0 };

    ghost has_room: { Self → Type 0 };

    fn keep(&mut self, item: T)
        requires { has_room self.old }
        ensures { takes self.old self.new item };
}

/// Room for one.
#[derive(Drop)]
pub struct OneUndoRecord<T> {
    pub item: Option<T>,
}

impl<T: Drop> UndoSink<T> for OneUndoRecord<T> {
    ghost takes = { λ o p x. p.item ≡ Some x };

    ghost has_room = { λ o. o.item ≡ None };

    #[inline(always)]
    fn keep(&mut self, item: T) {
        self.item = Some(item);
    }
}

impl<T: Drop, A: Allocator> UndoSink<T> for Vec<T, A> {
    ghost takes = { λ v w x. w.items ≡ v.items ++ x ∷ [] };

    ghost has_room = { λ v. vec_len v < vec_capacity v };

    #[inline(always)]
    fn keep(&mut self, item: T) {
        match self.push(item) {
            Ok(()) => {}
            Err(_) => unreachable!(),
        }
    }
}

/// Keeps the undo record that was made, if one was.
#[inline(always)]
pub(crate) fn keep_made<A: Allocator, K: UndoSink<UndoRecord<A>>>(
    into: &mut K,
    made: Result<UndoRecord<A>, StepError>,
) -> Result<(), StepError>
    requires { K.has_room into.old }
    ensures kept { IsPassedOn made result (K.takes into.old into.new) }
    ensures none { OnErr result (into.new ≡ into.old) }
{
    match made {
        Ok(undo_record) => {
            into.keep(undo_record);
            Ok(())
        }
        Err(error) => Err(error),
    }
}
