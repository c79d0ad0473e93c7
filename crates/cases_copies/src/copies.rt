//! Texts, lists, boxes, options and folders beside their copies, and the order of texts.

use crate::tree::Tree;
use cases_text::{put, put_shown, split_word, text_of};
use osgi_base::{Boxed, Copied, File, Folder, List, Text, copy_option};
use std::alloc::{AllocError, Global};
use std::cmp::Ordering;

/// The list of one item.
pub fn one<T: Drop>(alloc: Global, item: Result<T, AllocError>) -> Result<List<T>, AllocError> {
    let mut list = List::with_capacity(alloc, 1)?;
    list.push(item?)?;
    Ok(list)
}

fn text(alloc: Global) -> Result<Text, AllocError> {
    text_of(alloc, "ab")
}

fn file(alloc: Global) -> Result<File, AllocError> {
    let path = text_of(alloc, "META-INF/MANIFEST.MF")?;
    let bytes = text(alloc)?;
    Ok(File { path, bytes })
}

fn folder(alloc: Global) -> Result<Folder, AllocError> {
    let files = one(alloc, file(alloc))?;
    Ok(Folder { files })
}

fn boxed(alloc: Global) -> Result<Boxed<Text>, AllocError> {
    Boxed::new(alloc, text(alloc)?)
}

/// A leaf and an empty list.
fn trees(alloc: Global) -> Result<List<Tree>, AllocError> {
    let mut trees = List::new(alloc)?;
    trees.push(Tree::Leaf(text(alloc)?))?;
    trees.push(Tree::Many(List::new(alloc)?))?;
    Ok(trees)
}

/// A box with a list of a leaf and an empty list.
fn tree(alloc: Global) -> Result<Tree, AllocError> {
    let many = Tree::Many(trees(alloc)?);
    Ok(Tree::Hung(Boxed::new(alloc, many)?))
}

/// Whether a value equals its copy.
fn is_same<T: Copied + PartialEq>(
    alloc: Global,
    value: Result<T, AllocError>,
) -> Result<bool, AllocError> {
    let value = value?;
    Ok(value.copied(alloc)? == value)
}

/// Adds a name, and whether something holds of it.
fn put_named(out: &mut String, name: &str, holds: bool) -> Result<(), AllocError> {
    put(out, name)?;
    put(out, " ")?;
    put_shown(out, &holds)?;
    put(out, ", ")
}

/// Adds whether a value equals its copy.
fn add<T: Copied + PartialEq>(
    alloc: Global,
    out: &mut String,
    name: &str,
    value: Result<T, AllocError>,
) -> Result<(), AllocError> {
    put_named(out, name, is_same(alloc, value)?)
}

/// Whether a list differs from its copy once that is longer.
fn is_longer_another(alloc: Global, list: &List<Text>) -> Result<bool, AllocError> {
    let mut longer = list.copy(alloc)?;
    longer.push(text(alloc)?)?;
    Ok(longer != *list && longer.items().len() == 2)
}

/// Whether a tree is another one than the empty list.
fn is_not_empty(alloc: Global, tree: &Tree) -> Result<bool, AllocError> {
    Ok(Tree::Many(List::new(alloc)?) != *tree)
}

/// Whether an option equals its copy.
fn is_option_same(alloc: Global, option: &Option<Text>) -> Result<bool, AllocError> {
    Ok(copy_option(option, alloc)? == *option)
}

/// Adds whether a tree equals its copy, and no other tree.
fn add_tree(alloc: Global, out: &mut String) -> Result<(), AllocError> {
    let tree = tree(alloc)?;
    let is_same = tree.copy(alloc)? == tree;
    put_named(out, "tree", is_same && is_not_empty(alloc, &tree)?)
}

/// Adds whether an option equals its copy, with a value and without.
fn add_option(alloc: Global, out: &mut String) -> Result<(), AllocError> {
    let some = Some(text(alloc)?);
    let is_same = is_option_same(alloc, &some)? && is_option_same(alloc, &None)?;
    put_named(out, "option", is_same)
}

/// Whether a value of each type equals its copy.
pub fn copies(alloc: Global, out: &mut String) -> Result<(), AllocError> {
    add(alloc, out, "text", text(alloc))?;
    add(alloc, out, "list", one(alloc, text(alloc)))?;
    add(alloc, out, "file", file(alloc))?;
    add(alloc, out, "folder", folder(alloc))?;
    add(alloc, out, "box", boxed(alloc))?;
    add_option(alloc, out)?;
    add_tree(alloc, out)?;
    put(out, "a longer list differs ")?;
    let list = one(alloc, text(alloc))?;
    put_shown(out, &is_longer_another(alloc, &list)?)
}

/// The name of an order.
fn order_name(order: Ordering) -> &'static str {
    match order {
        Ordering::Less => "less",
        Ordering::Equal => "equal",
        Ordering::Greater => "greater",
    }
}

/// Adds how two texts compare, by their order and by equality.
fn add_order(out: &mut String, first: &Text, second: &Text) -> Result<(), AllocError> {
    put(out, order_name(first.cmp(second)))?;
    put(out, ", equal ")?;
    put_shown(out, &(first == second))
}

/// How two texts compare.
pub fn order(alloc: Global, out: &mut String, line: &str) -> Result<(), AllocError> {
    let (first, second) = split_word(line);
    let first = text_of(alloc, first)?;
    let second = text_of(alloc, second)?;
    add_order(out, &first, &second)
}
