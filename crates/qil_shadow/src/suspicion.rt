//! The report of a suspicious access.

use crate::access::{Action, Kind};
use crate::object::{Object, ObjectKind};
use crate::origin::Origin;
use qil_code::BlockId;
use qil_layout::FuncId;

/// Where a step is: a function, a block of it, and how many instructions of that are done.
#[derive(Clone, Copy)]
pub struct Place {
    pub func: FuncId,
    pub block: BlockId,
    pub index: u32,
}

/// What is done to how many bytes from an address on, and what the address is made of.
#[derive(Clone, Copy)]
pub struct Access {
    pub action: Action,
    pub origin: Origin,
    pub address: u64,
    pub count: u64,
}

/// What is suspicious of an access, and the object that was meant.
#[derive(Clone, Copy)]
pub struct Doubt {
    pub kind: Kind,
    pub object: Option<Object>,
}

/// What lies where an access went.
#[derive(Clone, Copy)]
pub enum Hit {
    /// So far into an object.
    Into(ObjectKind, u64),
    /// Live bytes of none.
    Between,
    /// Dead bytes.
    Dead,
}

/// A suspicion: by which move, where, of which access; the object is as it was then.
#[derive(Clone, Copy)]
pub struct Suspicion {
    pub position: u64,
    pub place: Place,
    pub access: Access,
    pub doubt: Doubt,
    pub hit: Hit,
}
