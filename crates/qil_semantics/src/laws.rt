//! Laws of steps: what a fault changes, in which order the faults of a call come, how phis merge, what `$puts` writes.

ghost use Rattle.std.specs.Prelude.{◌≡◌, ◌≤◌, ◌<◌, ◌+◌, ℕ, true, false, List, [], ◌∷◌, ◌++◌, length, Option, Some, None, Ok, Err};
ghost use Rattle.std.specs.Str.{bytes_eq};
ghost use Rattle.qil_tree.specs.declared.ops.Class.{Class};
ghost use Rattle.qil_tree.specs.declared.tree.Argument.{Argument};
ghost use Rattle.qil_tree.specs.declared.tree.CallResult.{CallResult};
ghost use Rattle.qil_tree.specs.declared.tree.Func.{Func};
ghost use Rattle.qil_tree.specs.declared.tree.Program.{Program};
ghost use Rattle.qil_memory.specs.qil_layout.Callee.{callee_at};
ghost use Rattle.qil_memory.specs.Buffers.{stack_end};
ghost use Rattle.qil_memory.specs.Live.{Live};
ghost use Rattle.qil_semantics.specs.State.{Name, Frame, State, running, dead_address, no_function, call_shape, calls_too_deep, output_full};
ghost use Rattle.qil_semantics.specs.Calls.{shape_of, is_in_shape, call, call_defined, next, takes, depth_limit, output_limit, writes, text_at, puts};
ghost use Rattle.qil_semantics.specs.Step.{step_of};
ghost use Rattle.qil_semantics.specs.Timeline.{Timeline, at_end};
ghost use Rattle.qil_semantics.specs.Moves.{forward_by};
ghost use Rattle.qil_semantics.specs.Laws.{Settles, IsText, IsCutAfter, Swapped};

/// A step that faults changes the status and nothing else.
pub fn fault_changes_status<A>()
    ensures { (p : Program A) (s : State) → s.status ≡ running → Settles s (step_of p s) }
{}

/// No step is made from a final state; and where no frame is left, as after the last return, the definition of a step
/// gives the state itself. At other final states a step is never asked for.
pub fn final_states_stay<A>()
    ensures forward { (p : Program A) (n : ℕ) (timeline : Timeline) → at_end timeline ≡ true → forward_by p n timeline ≡ timeline }
    ensures no_frame { (p : Program A) (s : State) → s.frames ≡ [] → step_of p s ≡ s }
{}

/// Of the faults of a call that there is no function comes first, then its shape, then its depth.
pub fn call_faults_in_order<A>()
    ensures no_function { (p : Program A) (s : State) (f : Frame) (fs : List Frame) (to : Option CallResult) (args : List Argument) (a : ℕ) (vs : List ℕ) → callee_at p a ≡ None → call p s f fs to args a vs ≡ Err (no_function a) }
    ensures shape { (s : State) (f : Frame) (fs : List Frame) (to : Option CallResult) (args : List Argument) (vs : List ℕ) (func : Func A) → is_in_shape (shape_of func) to args ≡ false → call_defined s f fs to args vs (Some func) ≡ Err call_shape }
    ensures depth { (s : State) (f : Frame) (fs : List Frame) (to : Option CallResult) (args : List Argument) (vs : List ℕ) (func : Func A) → is_in_shape (shape_of func) to args ≡ true → depth_limit ≤ length (f ∷ fs) → call_defined s f fs to args vs (Some func) ≡ Err calls_too_deep }
{}

/// Bytes are written as long as the output stays within its limit.
pub fn output_is_bounded()
    ensures full { (s : State) (f : Frame) (fs : List Frame) (to : Option CallResult) (bytes : List ℕ) (v : ℕ) → output_limit < length (s.output ++ bytes) → writes s f fs to bytes v ≡ Err output_full }
    ensures within { (s : State) (f : Frame) (fs : List Frame) (to : Option CallResult) (bytes : List ℕ) (v : ℕ) → length (s.output ++ bytes) ≤ output_limit → writes s f fs to bytes v ≡ Ok (record s { frames = takes (next f) to (Some v) ∷ fs; output = s.output ++ bytes }) }
{}

/// All phis read before they write: two that take one another's temporary swap the values.
pub fn phis_swap<A>()
    ensures { (p : Program A) (f : Frame) (c : Class) (a : Name) (b : Name) (x : ℕ) (y : ℕ) → bytes_eq a b ≡ false → f.temps a ≡ Some x → f.temps b ≡ Some y → Swapped p f c a b x y }
{}

/// What `$puts` writes is the text at an address up to its zero byte, and its fault has the first dead byte.
pub fn text_is_up_to_zero()
    ensures text { (m : Live) (a : ℕ) (bytes : List ℕ) → length bytes ≤ stack_end → IsText m a bytes → text_at m a ≡ Ok bytes }
    ensures dead { (m : Live) (a : ℕ) (k : ℕ) → k ≤ stack_end → IsCutAfter m a k → text_at m a ≡ Err (dead_address (a + k)) }
{}

/// Of the faults of `$puts` the dead byte comes before the full output, however much was written.
pub fn dead_byte_comes_before_full_output()
    ensures { (s : State) (f : Frame) (fs : List Frame) (to : Option CallResult) (a : ℕ) (k : ℕ) → k ≤ stack_end → IsCutAfter s.memory a k → puts s f fs to a ≡ Err (dead_address (a + k)) }
{}
