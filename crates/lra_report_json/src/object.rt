//! JSON objects, made member by member.

ghost use Rattle.std.specs.Prelude.{◌≡◌, IfOk};
ghost use Rattle.serde_json.specs.Data.{no_members, object, put as with_member, string};
ghost use Rattle.serde_json.specs.View.{members_view, view};

use serde_json::{Map, Value, put};
use std::alloc::{AllocError, Global};

/// The members of an object that is being made, in the order of their keys.
pub(crate) struct Object {
    alloc: Global,
    members: Map<String, Value>,
}

impl Drop for Object {
    fn drop(self) {
        let Object {
            alloc: _,
            members: _,
        } = self;
    }
}

impl Object {
    /// The object without members.
    pub(crate) fn new(alloc: Global) -> Object
        ensures { members_view result.members.entries ≡ no_members }
    {
        Object {
            alloc,
            members: Map::new(alloc),
        }
    }

    /// The object with this value at this key.
    pub(crate) fn with(self, key: &str, value: Value) -> Result<Object, AllocError>
        ensures { IfOk result (λ made. members_view made.members.entries ≡
            with_member key.now (view value) (members_view self.members.entries)) }
    {
        let mut made = self;
        put(&mut made.members, made.alloc, key, value)?;
        Ok(made)
    }

    /// The object with this text at this key.
    pub(crate) fn with_text(self, key: &str, text: &str) -> Result<Object, AllocError>
        ensures { IfOk result (λ made. members_view made.members.entries ≡
            with_member key.now (string text.now) (members_view self.members.entries)) }
    {
        let value = Value::try_from_str(self.alloc, text)?;
        self.with(key, value)
    }

    /// The whole object, as a value.
    pub(crate) fn into_value(self) -> Value
        ensures { view result ≡ object (members_view self.members.entries) }
    {
        let Object { alloc: _, members } = self;
        Value::Object(members)
    }
}
