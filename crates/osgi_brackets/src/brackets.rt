//! The open brackets by caller.

ghost use Rattle.std.specs.Prelude.{◌≡◌, ◌↔◌, [], ◌++◌, ◌∷◌, List, length, IsOk, IsTrue, OnOk, OnErr};
ghost use Rattle.std.specs.Option.{option_map};
ghost use Rattle.osgi_ops.specs.OwnBrackets.{own_closes};
ghost use Rattle.osgi_ops.specs.declared.entry.Entry.{Entry};
ghost use Rattle.osgi_brackets.specs.Kinds.{bracket_of, cause_of};
ghost use Rattle.osgi_brackets.specs.Open.{Closes, HasRoom, HoldsMost, HoldsSame, innermost_of, open_of, Opens, StandsFor};

use crate::bracket::{BracketKind, OpenBracket, ends, opens};
use osgi_base::{NumberMap, Tag};
use osgi_ops::{Entry, MAX_BRACKETS, Op};
use std::alloc::{AllocError, Global};

/// The open brackets of each caller. Each call takes the same time however many brackets and callers there are.
#[derive(Drop)]
pub struct Brackets {
    alloc: Global,
    /// Those of each caller, the innermost last.
    callers: NumberMap<Vec<OpenBracket>>,
}

impl Brackets {
    /// None is open.
    pub fn new(alloc: Global) -> Brackets
        ensures none { StandsFor [] result }
    {
        Brackets {
            alloc,
            callers: NumberMap::new(alloc),
        }
    }

    /// How many brackets the caller has open.
    pub fn depth(&self, caller: u32) -> usize
        ensures depth { result ≡ length (open_of self.now caller) }
    {
        match self.callers.get(caller) {
            Some(own) => own.len(),
            None => 0,
        }
    }

    /// Whether the caller has as many brackets open as it may.
    pub fn is_full(&self, caller: u32) -> bool
        ensures full { IsTrue result ↔ HoldsMost caller self.now }
    {
        self.depth(caller) >= MAX_BRACKETS
    }

    /// The innermost bracket of the caller, if it has one.
    pub fn innermost(&self, caller: u32) -> Option<OpenBracket>
        ensures innermost { option_map (bracket_of caller) result
            ≡ innermost_of (open_of self.now caller) }
    {
        self.callers.get(caller)?.last().copied()
    }

    /// Makes room for one more bracket of the caller. The brackets stay, also if memory runs out.
    pub fn reserve(&mut self, caller: u32) -> Result<(), AllocError>
        ensures room { OnOk result (HasRoom caller self.new) }
        ensures unchanged { HoldsSame self.old self.new }
    {
        if let Some(own) = self.callers.get_mut(caller) {
            own.reserve(1)?;
            return Ok(());
        }
        let own = Vec::with_capacity(self.alloc, 1)?;
        self.callers.insert(caller, own)?;
        Ok(())
    }

    /// Opens a bracket of the tag's caller, which is then its innermost. If memory runs out, nothing is opened; where there is
    /// room, it takes none.
    pub fn push(&mut self, tag: Tag, kind: BracketKind) -> Result<(), AllocError>
        ensures opened { OnOk result (Opens self.old self.new tag (cause_of kind)) }
        ensures room { HasRoom tag.caller self.old → IsOk result }
        ensures unchanged { OnErr result (HoldsSame self.old self.new) }
    {
        let bracket = OpenBracket {
            command: tag.command,
            kind,
        };
        if let Some(own) = self.callers.get_mut(tag.caller) {
            own.push(bracket)?;
            return Ok(());
        }
        let mut own = Vec::with_capacity(self.alloc, 1)?;
        own.push(bracket)?;
        self.callers.insert(tag.caller, own)?;
        Ok(())
    }

    /// Closes the innermost bracket of the caller, if it has one. It takes no memory.
    pub fn pop(&mut self, caller: u32)
        ensures closed { Closes self.old self.new caller }
    {
        if let Some(own) = self.callers.get_mut(caller) {
            own.pop();
        }
    }

    /// Whether an operation is the end of the innermost bracket of the tag's caller, which the tag's own line opened.
    pub fn is_end(&self, tag: Tag, op: &Op) -> bool
        ensures end { result ≡ own_closes tag op.now (open_of self.now tag.caller) }
    {
        match self.innermost(tag.caller) {
            Some(bracket) => bracket.command == tag.command && ends(op, bracket.kind),
            None => false,
        }
    }

    /// Opens what an entry of the history opens, or closes what it ends. If memory runs out, nothing is opened.
    pub fn follow(&mut self, entry: &Entry) -> Result<(), AllocError>
        ensures follows { (history : List Entry)
            → StandsFor history self.old
            → OnOk result (StandsFor (history ++ entry.now ∷ []) self.new) }
        ensures unchanged { OnErr result (HoldsSame self.old self.new) }
    {
        if let Some(kind) = opens(&entry.op, &entry.reply) {
            return self.push(entry.tag, kind);
        }
        if self.is_end(entry.tag, &entry.op) {
            self.pop(entry.tag.caller);
        }
        Ok(())
    }
}
