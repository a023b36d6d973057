//! A place of a code, and how often a run stood there.

ghost use Rattle.std.specs.Prelude.{◌≡◌};
ghost use Rattle.qil_counts.specs.Counts.{same_place};

use qil_code::BlockId;
use qil_layout::FuncId;

/// A place where a run can stand: a block of a function, and how many of its instructions are done. Where all are, the jump is next.
#[derive(Clone, Copy)]
pub struct CodePlace {
    pub func: FuncId,
    pub block: BlockId,
    pub index: u64,
}

/// How often a run stood at a place.
#[derive(Clone, Copy)]
pub struct Count {
    pub place: CodePlace,
    pub count: u64,
}

/// Whether two places are one.
#[inline(always)]
pub fn same_place(one: CodePlace, other: CodePlace) -> bool
    ensures { result ≡ same_place one other }
{
    one.func.index == other.func.index
        && one.block.index == other.block.index
        && one.index == other.index
}
