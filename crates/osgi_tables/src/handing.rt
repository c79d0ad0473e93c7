//! What the tables change as a listener is added or an event is handed.

ghost use Rattle.std.specs.Prelude.{◌≡◌, ◌<◌, None, Option, OnOk, OnErr};
ghost use Rattle.osgi_listeners.specs.Rows.{add_refusal};
ghost use Rattle.osgi_model.specs.declared.filter.Filter.{Filter};
ghost use Rattle.osgi_ops.specs.declared.kind.Kind.{Kind};
ghost use Rattle.osgi_tables.specs.Changes.{CanBeHanded, Hands, Listens};
ghost use Rattle.osgi_tables.specs.Replied.{StandsStill};

use crate::tables::Tables;
use osgi_base::{BundleId, ListenerId, Tag, Text};
use osgi_brackets::BracketKind;
use osgi_listeners::{HandAnswer, ListenerRow};
use osgi_model::Filter;
use osgi_ops::Kind;
use std::alloc::AllocError;

impl Tables {
    /// The owner's listener of this name is added. If memory runs out, the tables stand for what they did.
    pub(crate) fn listen(
        &mut self,
        owner: BundleId,
        name: Text,
        kind: Kind,
        filter: Option<Filter>,
    ) -> Result<(), AllocError>
        requires free { add_refusal owner name self.old.listeners.rows ≡ None }
        requires ids_left { self.old.listeners.issued < 4294967295 }
        ensures added { OnOk result (Listens owner name kind filter self.old self.new) }
        ensures unchanged { OnErr result (StandsStill self.old self.new) }
    {
        let listener = self.listeners.next_id();
        self.listeners.insert(ListenerRow {
            listener,
            owner,
            name,
            kind,
            filter,
        })?;
        Ok(())
    }

    /// The earliest event that waits is handed, to this listener, for the line of the tag. If memory runs out, the tables stand
    /// for what they did.
    pub(crate) fn hand(&mut self, tag: Tag, listener: ListenerId) -> Result<(), AllocError>
        requires possible { CanBeHanded listener self.old }
        ensures handed { OnOk result (Hands tag listener self.old self.new) }
        ensures unchanged { OnErr result (StandsStill self.old self.new) }
    {
        // The bracket's room is taken first: once the event is handed nothing may fail.
        self.brackets.reserve(tag.caller)?;
        let HandAnswer::Handed { listener, .. } = self.listeners.hand(tag)? else {
            unreachable!()
        };
        let Ok(()) = self.brackets.push(tag, BracketKind::Hand(listener)) else {
            unreachable!()
        };
        self.handings_left -= 1;
        Ok(())
    }
}
