//! Laws about where names and bytes are, each the contract of a function that does nothing: they tie the addresses of
//! names, the bytes of the data and what can't be laid out, which are defined one next to the other.

ghost use Rattle.std.specs.Prelude.{◌≡◌, ℕ, zero, suc, ◌+◌, ◌*◌, ◌<◌, ◌≤◌, ◌⊎◌, List, [], length, Some, None, slice_get};
ghost use Rattle.qil_tree.specs.declared.tree.Data.{Data};
ghost use Rattle.qil_tree.specs.declared.tree.Func.{Func};
ghost use Rattle.qil_tree.specs.declared.tree.Program.{Program};
ghost use Rattle.qil_rules.specs.Rules.{WellFormed};
ghost use Rattle.qil_layout.specs.declared.callee.Callee.TheVariants.{Defined};
ghost use Rattle.qil_layout.specs.Layout.{data_base, rounded, align_of, size_of, address_of, bytes_of, fault_of};
ghost use Rattle.qil_layout.specs.Callee.{callee_at};
ghost use Rattle.qil_layout_builder.specs.Laws.{IsLeastMultiple, HaveOwnNames, LiesAt, IsPlaced, IsInObject, IsOfData, IsOfFunction, IsOfBuiltIn, IsFirstNamed};

/// What rounding gives.
pub fn least_multiple()
    ensures { (align n : ℕ) → 0 < align → IsLeastMultiple align n (rounded align n) }
{}

/// In a well-formed program no two data objects have one name.
pub fn names_are_own<A>()
    ensures { (p : Program A) → WellFormed p → HaveOwnNames p }
{}

/// The name of each data object has an address, at which its bytes stand.
pub fn objects_stand<A>()
    ensures some { (p : Program A) (k : ℕ) (d : Data A) → fault_of p ≡ None → HaveOwnNames p → slice_get p.datas k ≡ Some d → (a : ℕ) × LiesAt p k d a }
    ensures all { (p : Program A) (k : ℕ) (d : Data A) (a : ℕ) → fault_of p ≡ None → HaveOwnNames p → LiesAt p k d a → IsPlaced p d a }
{}

/// The data objects stand in the order of the text, each as low as its alignment lets it after the one before, and the
/// data ends with the last.
pub fn objects_stand_in_order<A>()
    ensures first { (p : Program A) (d : Data A) (a : ℕ) → fault_of p ≡ None → HaveOwnNames p → LiesAt p 0 d a → IsLeastMultiple (align_of d) data_base a }
    ensures next { (p : Program A) (k : ℕ) (d e : Data A) (a b : ℕ) → fault_of p ≡ None → HaveOwnNames p → LiesAt p k d a → LiesAt p (suc k) e b → IsLeastMultiple (align_of e) (a + size_of d) b }
    ensures apart { (p : Program A) (j k : ℕ) (d e : Data A) (a b : ℕ) → fault_of p ≡ None → HaveOwnNames p → j < k → LiesAt p j d a → LiesAt p k e b → a + size_of d ≤ b }
    ensures last { (p : Program A) (k : ℕ) (d : Data A) (a : ℕ) → fault_of p ≡ None → HaveOwnNames p → suc k ≡ length p.datas → LiesAt p k d a → data_base + length (bytes_of p) ≡ a + size_of d }
    ensures none { (p : Program A) → p.datas ≡ [] → bytes_of p ≡ [] }
{}

/// What stands between the data objects is zero.
pub fn padding_is_zero<A>()
    ensures { (p : Program A) (i : ℕ) → fault_of p ≡ None → HaveOwnNames p → i < length (bytes_of p) → (IsInObject p (data_base + i) → ⊥) → slice_get (bytes_of p) i ≡ Some 0 }
{}

/// A name with an address is that of a data object, a function or a built-in function; below the data no two names have
/// one address; the functions lie 16 bytes apart, and a call of such an address goes to the function.
pub fn names_have_their_own<A>()
    ensures each { (p : Program A) (x : List ℕ) (a : ℕ) → fault_of p ≡ None → address_of p x ≡ Some a → IsOfData p x a ⊎ (IsOfFunction p x a ⊎ IsOfBuiltIn x a) }
    ensures below { (p : Program A) (x : List ℕ) (a : ℕ) → length p.funcs ≤ 1000 → IsOfFunction p x a ⊎ IsOfBuiltIn x a → a < data_base }
    ensures apart { (p : Program A) (x y : List ℕ) (a : ℕ) → fault_of p ≡ None → a < data_base → address_of p x ≡ Some a → address_of p y ≡ Some a → x ≡ y }
    ensures function { (p : Program A) (k : ℕ) (f : Func A) → IsFirstNamed p k f → address_of p f.name ≡ Some (4096 + 16 * k) }
    ensures called { (p : Program A) (k : ℕ) (f : Func A) → slice_get p.funcs k ≡ Some f → callee_at p (4096 + 16 * k) ≡ Some (Defined (record { index = k })) }
{}
