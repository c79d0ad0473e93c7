//! What a caller asks for.

ghost use Rattle.std.specs.Prelude.{◌≡◌};

use crate::entry::Entry;
use crate::op::Op;
use crate::reply::Reply;
use osgi_base::Tag;

/// An operation, and who asks for it.
pub struct Asked {
    pub tag: Tag,
    pub op: Op,
}

/// Not derived, so that each exit at which one is dropped is a single call, which is cheap to prove.
impl Drop for Asked {
    fn drop(self) {
        let Asked { tag: _, op: _ } = self;
    }
}

impl Asked {
    /// The entry with the reply.
    pub fn answered(self, reply: Reply) -> Entry
        ensures entry { result ≡ record { tag = self.tag; op = self.op; reply = reply } }
    {
        let Asked { tag, op } = self;
        Entry { tag, op, reply }
    }
}
