//! Values that are exchanged and put back.

ghost use Rattle.std.specs.Prelude.{◌≡◌, length};
ghost use Rattle.qil_frames.specs.Enter.{AreSlots, put_back, written};

use crate::saved::SavedSlot;

/// Puts back the values that were kept.
pub fn restore(values: &mut [Option<u64>], kept: &[SavedSlot])
    requires { AreSlots kept.now (length values.old) }
    ensures { values.new ≡ put_back kept.now values.old }
{
    let mut i = kept.len();
    while i > 0 {
        i -= 1;
        let SavedSlot { slot, value } = kept[i];
        values[usize::from(slot.index)] = value;
    }
}

/// Writes these values in order, and keeps those that stood there in their place.
pub fn exchange(values: &mut [Option<u64>], new: &mut [SavedSlot])
    requires { AreSlots new.old (length values.old) }
    ensures after { values.new ≡ written new.old values.old }
    ensures undo { put_back new.new values.new ≡ values.old }
    ensures fits { AreSlots new.new (length values.old) }
    ensures count { length new.new ≡ length new.old }
{
    for i in 0..new.len() {
        let SavedSlot { slot, value } = new[i];
        let old = values[usize::from(slot.index)];
        values[usize::from(slot.index)] = value;
        new[i] = SavedSlot { slot, value: old };
    }
}
