//! A type that contains itself, in lists and in boxes.

ghost use Rattle.std.specs.Prelude.{◌≡◌, IfOk};

use osgi_base::{Boxed, List, Text};
use std::alloc::{AllocError, Global};

#[derive(Drop, PartialEq, Eq)]
pub enum Tree {
    Leaf(Text),
    Many(List<Tree>),
    Hung(Boxed<Tree>),
}

impl Tree {
    #[cycle(copy)]
    pub fn copy(&self, alloc: Global) -> Result<Tree, AllocError>
        ensures same { IfOk result (λ copy. copy ≡ self.now) }
    {
        match self {
            Tree::Leaf(text) => Ok(Tree::Leaf(text.copy(alloc)?)),
            Tree::Many(trees) => Ok(Tree::Many(copy_all(trees.items(), alloc)?)),
            Tree::Hung(tree) => Ok(Tree::Hung(Boxed::new(alloc, tree.get().copy(alloc)?)?)),
        }
    }
}

#[cycle(copy)]
fn copy_all(trees: &[Tree], alloc: Global) -> Result<List<Tree>, AllocError>
    ensures same { IfOk result (λ copies. copies ≡ trees.now) }
{
    let mut copies = List::new(alloc)?;
    for one in trees {
        copies.push(one.copy(alloc)?)?;
    }
    Ok(copies)
}
