//! Items and rows, shown.

ghost use Rattle.std.specs.Prelude.{◌<◌, ◌≤◌, length};

use cases_text::{put, put_shown};
use osgi_links::Rows;
use std::alloc::AllocError;

/// Adds an item with its value.
pub fn add_item(out: &mut String, rows: &Rows, item: usize) -> Result<(), AllocError>
    requires item { item < length rows.now.values }
{
    put_shown(out, &item)?;
    put(out, ":")?;
    put_shown(out, &rows.value(item))
}

/// Adds the items of a row that are not out.
fn add_row(out: &mut String, rows: &Rows, row: usize) -> Result<(), AllocError>
    requires row { row < length rows.now.rows }
{
    let Some(mut item) = rows.first(row) else {
        return put(out, "-");
    };
    add_item(out, rows, item)?;
    for _ in 0..u64::MAX {
        let Some(next) = rows.next(row, item) else {
            break;
        };
        put(out, ",")?;
        add_item(out, rows, next)?;
        item = next;
    }
    Ok(())
}

/// Adds so many rows.
pub fn add_rows(out: &mut String, rows: &Rows, count: usize) -> Result<(), AllocError>
    requires rows { count ≤ length rows.now.rows }
{
    if count == 0 {
        return put(out, "no rows");
    }
    for row in 0..count {
        if row > 0 {
            put(out, " ")?;
        }
        add_row(out, rows, row)?;
    }
    Ok(())
}
