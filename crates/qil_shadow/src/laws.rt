//! What follows of the definitions, with nothing to run.

ghost use Rattle.std.specs.Prelude.{◌≡◌, List, Some, None, true, slice_get};
ghost use Rattle.qil_tree.specs.declared.ops.Class.TheVariants.{W, L};
ghost use Rattle.qil_shadow.specs.declared.origin.ObjectId.{ObjectId};
ghost use Rattle.qil_shadow.specs.declared.origin.Origin.{Origin};
ghost use Rattle.qil_shadow.specs.Origins.{plain};
ghost use Rattle.qil_shadow.specs.Bytes.{joined, stored_origins};
ghost use Rattle.qil_shadow.specs.Objects.{Object, is_living, contains};
ghost use Rattle.qil_shadow.specs.Accesses.{Access};
ghost use Rattle.qil_shadow.specs.Suspicions.{doubted, is_all_in};
ghost use Rattle.qil_shadow.specs.Objects.{object_at};

/// An access that isn't suspicious lies in a living object: the one whose address it goes through, or, through what is made of
/// more than one address, some one. No other goes through anything that an address went into.
pub fn accesses_hold()
    ensures meant { (os : List Object) (a : Access) (o : ObjectId) (x : Object) → slice_get os o.index ≡ Some x → doubted os a (Origin.Address o) ≡ None → (is_living x ≡ true) × (contains x a.address a.count ≡ true) }
    ensures some { (os : List Object) (a : Access) → doubted os a Origin.Mixed ≡ None → is_all_in a (object_at os a.address) ≡ true }
{}

/// A long word that is stored and loaded again is made of what it was, but that a part of an address is one that was cut; the low
/// word of an address stays that.
pub fn words_go_through_memory()
    ensures long { (m : Origin) → joined L (stored_origins 8 m) ≡ plain m }
    ensures low { (o : ObjectId) → joined W (stored_origins 4 (Origin.Part o 0)) ≡ Origin.Part o 0 }
{}
