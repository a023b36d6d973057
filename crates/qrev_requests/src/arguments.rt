//! The arguments of a request, looked up by name.

ghost use Rattle.std.specs.Prelude.{◌≡◌, codes, option_map};
ghost use Rattle.json.specs.Find.{get};
ghost use Rattle.json.specs.Value.{value_view};
ghost use Rattle.qrev_requests.specs.Members.{json_of, member_in, text_in, flag_in, IsNumberIn, IsSignedIn};

use json::Value;
use qrev_protocol::{flag_of, number_of, signed_of, text_of};
use std::alloc::Allocator;

/// The arguments of a request, if it has any.
#[derive(Clone, Copy)]
pub struct Arguments<'m, 'q, A: Allocator> {
    value: Option<&'m Value<'q, A>>,
}

impl<'m, 'q, A: Allocator + Copy> Arguments<'m, 'q, A> {
    /// Those of a message.
    pub fn of(message: &'m Value<'q, A>) -> Self
        ensures { json_of result ≡ get (codes "arguments") (value_view message.now) }
    {
        Arguments {
            value: message.get("arguments"),
        }
    }

    /// A member, if there is one.
    pub fn get(self, name: &str) -> Option<&'m Value<'q, A>>
        ensures { option_map (λ value. value_view value.now) result ≡ member_in name.now (json_of self.entry) }
    {
        self.value?.get(name)
    }

    /// The text of a member.
    pub fn text(self, name: &str) -> Option<&'q str>
        ensures { option_map (λ text. text.now) result ≡ text_in name.now (json_of self.entry) }
    {
        text_of(self.value?, name)
    }

    /// The number of a member.
    pub fn number(self, name: &str) -> Option<u64>
        ensures { IsNumberIn name.now (json_of self.entry) result }
    {
        number_of(self.value?, name)
    }

    /// The number of a member, which may be below zero.
    pub fn signed(self, name: &str) -> Option<i64>
        ensures { IsSignedIn name.now (json_of self.entry) result }
    {
        signed_of(self.value?, name)
    }

    /// The flag of a member.
    pub fn flag(self, name: &str) -> Option<bool>
        ensures { result ≡ flag_in name.now (json_of self.entry) }
    {
        flag_of(self.value?, name)
    }

    /// The members of a member.
    pub fn inside(self, name: &str) -> Arguments<'m, 'q, A>
        ensures { json_of result ≡ member_in name.now (json_of self.entry) }
    {
        Arguments {
            value: self.get(name),
        }
    }

    /// The members of an item, counted from 0, of a member that is an array.
    pub fn item(self, name: &str, index: usize) -> Option<Arguments<'m, 'q, A>> {
        match self.get(name)?.at(index) {
            Some(value) => Some(Arguments { value: Some(value) }),
            None => None,
        }
    }

    /// Whether a member is a text that says something.
    pub fn says(self, name: &str) -> bool {
        match self.text(name) {
            Some(text) => !text.is_empty(),
            None => false,
        }
    }
}
