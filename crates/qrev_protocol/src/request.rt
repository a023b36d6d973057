//! What is read of a message that came in. A number stays text in the kit's JSON, so that none loses bits; one with a point or an
//! exponent is no number here.

ghost use Rattle.std.specs.Prelude.{◌≡◌, Some, None, option_map, option_and_then, ok_or, MatchOption, IfSome, IfNone};
ghost use Rattle.std.specs.Int.{w64};
ghost use Rattle.std.specs.Str.Parse.{ParsesSigned, ParsesUnsigned};
ghost use Rattle.json.specs.Find.{get, as_bool};
ghost use Rattle.json.specs.Value.{value_view};
ghost use Rattle.qrev_protocol.specs.Requests.{text_in, number_in, IsRequest, IsNoRequest};

use json::Value;
use std::alloc::Allocator;

/// The text of a member of an object, if it is a text.
pub fn text_of<'a, A: Allocator>(object: &Value<'a, A>, name: &str) -> Option<&'a str>
    ensures { option_map (λ s. s.now) result ≡ text_in name.now (value_view object.now) }
{
    object.get(name)?.as_str()
}

/// The number of a member of an object, if it is a whole number from 0 to 2^64 - 1, written in digits.
pub fn number_of<A: Allocator>(object: &Value<'_, A>, name: &str) -> Option<u64>
    ensures { MatchOption (number_in name.now (value_view object.now)) (result ≡ None)
        (λ s. ParsesUnsigned 64 10 s (ok_or result s)) }
{
    object.get(name)?.as_u64()
}

/// The number of a member of an object, if it is a whole number from -2^63 to 2^63 - 1, written in digits.
pub fn signed_of<A: Allocator>(object: &Value<'_, A>, name: &str) -> Option<i64>
    ensures { MatchOption (number_in name.now (value_view object.now)) (result ≡ None)
        (λ s. ParsesSigned w64 10 s (ok_or result s)) }
{
    object.get(name)?.as_i64()
}

/// The flag of a member of an object, if it is one.
pub fn flag_of<A: Allocator>(object: &Value<'_, A>, name: &str) -> Option<bool>
    ensures { result ≡ option_and_then as_bool (get name.now (value_view object.now)) }
{
    object.get(name)?.as_bool()
}

/// A request: its number, by which it is answered, and what it asks for. It can't be let go: it ends where it is responded to.
pub struct Request<'a> {
    seq: u64,
    command: &'a str,
}

impl<'a> Request<'a> {
    /// The number by which it is answered.
    pub fn seq(&self) -> u64
        ensures { result ≡ self.now.seq }
    {
        self.seq
    }

    /// What it asks for.
    pub fn command(&self) -> &'a str
        ensures { result.now ≡ self.now.command.now }
    {
        self.command
    }

    /// Ends it: it is answered, or never will be.
    pub fn end(self) {
        let Request { seq: _, command: _ } = self;
    }
}

/// The request that a message is, if it is one.
pub fn request_of<'a, A: Allocator>(message: &Value<'a, A>) -> Option<Request<'a>>
    ensures some { IfSome result (λ request. IsRequest (value_view message.now) request) }
    ensures none { IfNone result (IsNoRequest (value_view message.now)) }
{
    if text_of(message, "type")? != "request" {
        return None;
    }
    Some(Request {
        seq: number_of(message, "seq")?,
        command: text_of(message, "command")?,
    })
}
