//! Steps in rows: each calls what it names, where it may be called, and its answer is added.

ghost use Rattle.std.specs.Prelude.{◌≡◌, ◌<◌, ◌≤◌, length, IfOk, IfSome, IsTrue};
ghost use Rattle.osgi_links.specs.Held.{has, linked};

use crate::showing::{add_item, add_rows};
use cases_text::{number_of, put, split_word};
use osgi_links::Rows;
use std::alloc::AllocError;

/// What a step asks for.
#[derive(Clone, Copy)]
enum Step {
    Rows,
    First,
    Next,
    Unlink,
    Relink,
    ThereAndBack,
}

/// The steps by their first words: a table, since a chain of tests is dear to prove.
const STEPS: [(&str, Step); 6] = [
    ("rows", Step::Rows),
    ("first", Step::First),
    ("next", Step::Next),
    ("unlink", Step::Unlink),
    ("relink", Step::Relink),
    ("there-and-back", Step::ThereAndBack),
];

/// The step that a first word names.
fn step_of(word: &str) -> Option<Step> {
    for (name, step) in STEPS {
        if name == word {
            return Some(step);
        }
    }
    None
}

/// The number that a word writes; the greatest where it writes none.
fn place_of(word: &str) -> usize {
    number_of(word).unwrap_or(u64::MAX) as usize
}

/// The item, if it is in the row and not out.
fn linked_item(rows: &Rows, row: usize, item: usize) -> Option<usize>
    requires row { row < length rows.now.rows }
    ensures linked { IfSome result (λ x. IsTrue (has (linked rows.now row) x) × (x < length rows.now.values)) }
{
    let mut at = rows.first(row)?;
    for _ in 0..u64::MAX {
        if at == item {
            return Some(at);
        }
        at = rows.next(row, at)?;
    }
    None
}

/// Adds an item, if there is one.
fn add_found(out: &mut String, rows: &Rows, found: Option<usize>) -> Result<(), AllocError>
    requires item { IfSome found (λ x. x < length rows.now.values) }
{
    match found {
        Some(item) => add_item(out, rows, item),
        None => put(out, "none"),
    }
}

/// Adds the item that comes after one.
fn add_next(out: &mut String, rows: &Rows, row: usize, item: usize) -> Result<(), AllocError>
    requires row { row < length rows.now.rows }
{
    match linked_item(rows, row, item) {
        Some(item) => add_found(out, rows, rows.next(row, item)),
        None => put(out, "not in the row"),
    }
}

/// Takes an item out and puts it back, which changes nothing.
fn go_and_come(rows: &mut Rows, row: usize, item: usize)
    requires item { IsTrue (has (linked rows.old row) item) }
    ensures same { rows.new ≡ rows.old }
{
    rows.unlink(row, item);
    rows.relink();
}

/// Takes an item out and puts it back, and adds all rows.
fn there_and_back(
    out: &mut String,
    rows: &mut Rows,
    count: usize,
    row: usize,
    item: usize,
) -> Result<(), AllocError>
    requires rows { count ≤ length rows.old.rows }
    requires row { row < length rows.old.rows }
    ensures same { rows.new ≡ rows.old }
{
    match linked_item(rows, row, item) {
        Some(item) => {
            go_and_come(rows, row, item);
            add_rows(out, rows, count)
        }
        None => put(out, "not in the row"),
    }
}

/// Takes an item out, adds it and all rows, and returns how many items are out.
fn unlink(
    out: &mut String,
    rows: &mut Rows,
    count: usize,
    depth: usize,
    row: usize,
    item: usize,
) -> Result<usize, AllocError>
    requires rows { count ≤ length rows.old.rows }
    requires row { row < length rows.old.rows }
    requires depth { depth ≤ length rows.old.removed }
    ensures rows { rows.new.rows ≡ rows.old.rows }
    ensures depth { IfOk result (λ n. n ≤ length rows.new.removed) }
{
    let Some(item) = linked_item(rows, row, item) else {
        put(out, "not in the row")?;
        return Ok(depth);
    };
    rows.unlink(row, item);
    add_item(out, rows, item)?;
    put(out, " out of ")?;
    add_rows(out, rows, count)?;
    Ok(depth.saturating_add(1))
}

/// Puts the item back that was taken out last, adds all rows, and returns how many items are out.
fn relink(
    out: &mut String,
    rows: &mut Rows,
    count: usize,
    depth: usize,
) -> Result<usize, AllocError>
    requires rows { count ≤ length rows.old.rows }
    requires depth { depth ≤ length rows.old.removed }
    ensures rows { rows.new.rows ≡ rows.old.rows }
    ensures depth { IfOk result (λ n. n ≤ length rows.new.removed) }
{
    if depth == 0 {
        put(out, "none is out")?;
        return Ok(0);
    }
    rows.relink();
    add_rows(out, rows, count)?;
    Ok(depth - 1)
}

/// Takes a step at a row that is there, adds its answer, and returns how many items are out.
fn add_in_row(
    out: &mut String,
    rows: &mut Rows,
    count: usize,
    depth: usize,
    step: Step,
    row: usize,
    item: usize,
) -> Result<usize, AllocError>
    requires rows { count ≤ length rows.old.rows }
    requires row { row < length rows.old.rows }
    requires depth { depth ≤ length rows.old.removed }
    ensures rows { rows.new.rows ≡ rows.old.rows }
    ensures depth { IfOk result (λ n. n ≤ length rows.new.removed) }
{
    match step {
        Step::First => add_found(out, rows, rows.first(row))?,
        Step::Next => add_next(out, rows, row, item)?,
        Step::ThereAndBack => there_and_back(out, rows, count, row, item)?,
        Step::Unlink => return unlink(out, rows, count, depth, row, item),
        Step::Rows | Step::Relink => {}
    }
    Ok(depth)
}

/// Takes a step, adds its answer, and returns how many items are out.
fn add_step(
    out: &mut String,
    rows: &mut Rows,
    count: usize,
    depth: usize,
    words: &str,
) -> Result<usize, AllocError>
    requires rows { count ≤ length rows.old.rows }
    requires depth { depth ≤ length rows.old.removed }
    ensures rows { rows.new.rows ≡ rows.old.rows }
    ensures depth { IfOk result (λ n. n ≤ length rows.new.removed) }
{
    let (word, rest) = split_word(words);
    let (row, item) = split_word(rest);
    let (row, item) = (place_of(row), place_of(item));
    match step_of(word) {
        Some(Step::Relink) => return relink(out, rows, count, depth),
        Some(Step::Rows) => add_rows(out, rows, count)?,
        Some(step) if row < count => return add_in_row(out, rows, count, depth, step, row, item),
        Some(_) => put(out, "no such row")?,
        None => put(out, "not a step")?,
    }
    Ok(depth)
}

/// Takes the steps one after another, and adds the answers. None is out before.
pub fn add_answers(
    out: &mut String,
    rows: &mut Rows,
    count: usize,
    steps: &str,
) -> Result<(), AllocError>
    requires rows { count ≤ length rows.old.rows }
{
    let mut depth: usize = 0;
    for step in steps.split("; ") {
        if !out.is_empty() {
            put(out, "; ")?;
        }
        depth = add_step(out, rows, count, depth, step)?;
    }
    Ok(())
}
