//! Objects and arrays of JSON as they are written. What an object or an array stands in is in its type: a member has its name and
//! its value at once, nothing is written past the one that is open, and only a whole message can be sent.

ghost use Rattle.std.specs.Prelude.{◌≡◌, ℕ, List, [], ◌∷◌, ◌++◌, codes, decimal, IfOk};
ghost use Rattle.std.specs.Fmt.{signed_decimal};
ghost use Rattle.json.specs.Token.{Token, begin_object, end_object, begin_array, end_array, key, string, number, boolean, null};
ghost use Rattle.json.specs.Print.{print};
ghost use Rattle.qrev_protocol.specs.Open.{IsJson, IsOpenObject, IsOpenArray, LeadsToWhole, LeadsToMember};
ghost use Rattle.qrev_protocol.specs.Outgoing.{Adds};

use json::Writer;
use std::alloc::{AllocError, Allocator};

/// What a value stands in, by the tokens that may come before it.
pub trait Surrounding: Drop {
    ghost leads: { List Token → Type 0 };
}

/// What stands in no other value: a message.
#[derive(Clone, Copy)]
pub struct Whole;

/// What is the value of a member of an object.
#[derive(Clone, Copy)]
pub struct InObject<U> {
    up: U,
}

/// What is an item of an array.
#[derive(Clone, Copy)]
pub struct InArray<U> {
    up: U,
}

impl Surrounding for Whole {
    ghost leads = { LeadsToWhole };
}

impl<U: Surrounding> Surrounding for InObject<U> {
    ghost leads = { LeadsToMember U.leads };
}

impl<U: Surrounding> Surrounding for InArray<U> {
    ghost leads = { IsOpenArray U.leads };
}

/// An object that is being written.
#[derive(Drop)]
pub struct Object<A: Allocator, U: Surrounding> {
    pub out: Writer<A>,
    up: U,
    ghost alone: { out.before ≡ [] },
    ghost begun: { IsOpenObject U.leads out.tokens },
}

/// An array that is being written.
#[derive(Drop)]
pub struct Array<A: Allocator, U: Surrounding> {
    pub out: Writer<A>,
    up: U,
    ghost alone: { out.before ≡ [] },
    ghost begun: { IsOpenArray U.leads out.tokens },
}

/// Begins an object that stands in no other value.
pub fn begin_whole<A: Allocator>(alloc: A) -> Result<Object<A, Whole>, AllocError>
    ensures { IfOk result (λ o. o.out.tokens ≡ begin_object ∷ []) }
{
    let mut out = Writer::new(Vec::new(alloc));
    out.begin_object()?;
    Ok(Object { out, up: Whole })
}

/// Each call adds a member. It fails only where memory runs out, and then the value is gone, for it can't be ended any more.
impl<A: Allocator, U: Surrounding> Object<A, U> {
    pub fn number(self, name: &str, value: u64) -> Result<Self, AllocError>
        ensures { IfOk result (λ o. Adds self.out o.out (key name.now ∷ number (decimal value) ∷ [])) }
    {
        let Object { mut out, up } = self;
        out.key(name)?;
        out.u64(value)?;
        Ok(Object { out, up })
    }

    pub fn signed(self, name: &str, value: i64) -> Result<Self, AllocError>
        ensures { IfOk result (λ o. Adds self.out o.out (key name.now ∷ number (signed_decimal value) ∷ [])) }
    {
        let Object { mut out, up } = self;
        out.key(name)?;
        out.i64(value)?;
        Ok(Object { out, up })
    }

    pub fn text(self, name: &str, value: &str) -> Result<Self, AllocError>
        ensures { IfOk result (λ o. Adds self.out o.out (key name.now ∷ string value.now ∷ [])) }
    {
        let Object { mut out, up } = self;
        out.key(name)?;
        out.string(value)?;
        Ok(Object { out, up })
    }

    pub fn flag(self, name: &str, value: bool) -> Result<Self, AllocError>
        ensures { IfOk result (λ o. Adds self.out o.out (key name.now ∷ boolean value ∷ [])) }
    {
        let Object { mut out, up } = self;
        out.key(name)?;
        out.boolean(value)?;
        Ok(Object { out, up })
    }

    pub fn null(self, name: &str) -> Result<Self, AllocError>
        ensures { IfOk result (λ o. Adds self.out o.out (key name.now ∷ null ∷ [])) }
    {
        let Object { mut out, up } = self;
        out.key(name)?;
        out.null()?;
        Ok(Object { out, up })
    }

    /// Begins a member that is an object.
    pub fn object(self, name: &str) -> Result<Object<A, InObject<U>>, AllocError>
        ensures { IfOk result (λ o. Adds self.out o.out (key name.now ∷ begin_object ∷ [])) }
    {
        let Object { mut out, up } = self;
        out.key(name)?;
        out.begin_object()?;
        Ok(Object {
            out,
            up: InObject { up },
        })
    }

    /// Begins a member that is an array.
    pub fn array(self, name: &str) -> Result<Array<A, InObject<U>>, AllocError>
        ensures { IfOk result (λ o. Adds self.out o.out (key name.now ∷ begin_array ∷ [])) }
    {
        let Object { mut out, up } = self;
        out.key(name)?;
        out.begin_array()?;
        Ok(Array {
            out,
            up: InObject { up },
        })
    }
}

impl<A: Allocator, U: Surrounding> Object<A, InObject<U>> {
    /// Ends an object that is a member, and goes on with the object that it is a member of.
    pub fn end(self) -> Result<Object<A, U>, AllocError>
        ensures { IfOk result (λ o. Adds self.out o.out (end_object ∷ [])) }
    {
        let Object { mut out, up } = self;
        out.end_object()?;
        Ok(Object { out, up: up.up })
    }
}

impl<A: Allocator, U: Surrounding> Object<A, InArray<U>> {
    /// Ends an object that is an item, and goes on with the array that it stands in.
    pub fn end_item(self) -> Result<Array<A, U>, AllocError>
        ensures { IfOk result (λ o. Adds self.out o.out (end_object ∷ [])) }
    {
        let Object { mut out, up } = self;
        out.end_object()?;
        Ok(Array { out, up: up.up })
    }
}

/// Each call adds an item. It fails as with an object.
impl<A: Allocator, U: Surrounding> Array<A, U> {
    /// Begins an item that is an object.
    pub fn object(self) -> Result<Object<A, InArray<U>>, AllocError>
        ensures { IfOk result (λ o. Adds self.out o.out (begin_object ∷ [])) }
    {
        let Array { mut out, up } = self;
        out.begin_object()?;
        Ok(Object {
            out,
            up: InArray { up },
        })
    }

    pub fn number(self, value: u64) -> Result<Self, AllocError>
        ensures { IfOk result (λ o. Adds self.out o.out (number (decimal value) ∷ [])) }
    {
        let Array { mut out, up } = self;
        out.u64(value)?;
        Ok(Array { out, up })
    }

    pub fn text(self, value: &str) -> Result<Self, AllocError>
        ensures { IfOk result (λ o. Adds self.out o.out (string value.now ∷ [])) }
    {
        let Array { mut out, up } = self;
        out.string(value)?;
        Ok(Array { out, up })
    }
}

impl<A: Allocator, U: Surrounding> Array<A, InObject<U>> {
    /// Ends an array that is a member.
    pub fn end(self) -> Result<Object<A, U>, AllocError>
        ensures { IfOk result (λ o. Adds self.out o.out (end_array ∷ [])) }
    {
        let Array { mut out, up } = self;
        out.end_array()?;
        Ok(Object { out, up: up.up })
    }
}

impl<A: Allocator> Object<A, Whole> {
    /// Ends a message, with its number as its last member, and gives its text.
    pub fn into_text(self, seq: u64) -> Result<Vec<u8, A>, AllocError>
        ensures text { IfOk result (λ text. text.items ≡ print (self.out.tokens ++ key (codes "seq") ∷ number (decimal seq) ∷ end_object ∷ [])) }
        ensures json { IfOk result (λ text. IsJson text.items) }
    {
        let Object { mut out, .. } = self.number("seq", seq)?;
        out.end_object()?;
        Ok(out.into_inner())
    }
}
