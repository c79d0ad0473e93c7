//! The lines of a list of services and of a list of bundles.

ghost use Rattle.std.specs.Prelude.{◌≡◌, ◌++◌, map, OnOk};
ghost use Rattle.std.specs.List.{join_with_byte};
ghost use Rattle.osgi_session.specs.Rendering.{bundle_row_text, line_at, lines_at, service_lines, service_row_text};

use crate::writing::{add_indent, add_quoted, add_ranking, add_spaced, add_spaced_number};
use osgi_base::Text;
use osgi_ops::{BundleRow, ServiceRow};
use std::alloc::{AllocError, Global};

/// Adds class names with commas between them.
fn add_classes(out: &mut Vec<u8>, classes: &[Text]) -> Result<(), AllocError>
    ensures added { OnOk result (out.new.items ≡ out.old.items ++ join_with_byte 44 classes.now) }
{
    let Some((first, others)) = classes.split_first() else {
        return Ok(());
    };
    out.extend_from_slice(first.bytes())?;
    for class in others {
        out.push(b',')?;
        out.extend_from_slice(class.bytes())?;
    }
    Ok(())
}

/// Adds what a list shows of a service.
fn add_service(out: &mut Vec<u8>, row: &ServiceRow) -> Result<(), AllocError>
    ensures added { OnOk result (out.new.items ≡ out.old.items ++ service_row_text row.now) }
{
    out.extend_from_slice(b"service")?;
    add_spaced_number(out, row.service.0)?;
    add_spaced_number(out, u64::from(row.owner.0))?;
    out.push(b' ')?;
    add_ranking(out, row.ranking)?;
    out.push(b' ')?;
    add_classes(out, row.classes.items())?;
    out.push(b' ')?;
    add_quoted(out, row.object.bytes())
}

/// Adds the line of a service in a list.
fn add_service_row(out: &mut Vec<u8>, depth: usize, row: &ServiceRow) -> Result<(), AllocError>
    ensures added { OnOk result
        (out.new.items ≡ out.old.items ++ line_at depth (service_row_text row.now)) }
{
    add_indent(out, depth)?;
    add_service(out, row)?;
    out.push(b'\n')?;
    Ok(())
}

/// Adds the lines of a list of services.
pub fn add_services(out: &mut Vec<u8>, depth: usize, rows: &[ServiceRow]) -> Result<(), AllocError>
    ensures added { OnOk result
        (out.new.items ≡ out.old.items ++ lines_at depth (service_lines rows.now)) }
{
    if rows.is_empty() {
        add_indent(out, depth)?;
        return out.extend_from_slice(b"none\n");
    }
    for row in rows {
        add_service_row(out, depth, row)?;
    }
    Ok(())
}

/// Adds what a list shows of a bundle.
fn add_bundle(alloc: Global, out: &mut Vec<u8>, row: &BundleRow) -> Result<(), AllocError>
    ensures added { OnOk result (out.new.items ≡ out.old.items ++ bundle_row_text row.now) }
{
    out.extend_from_slice(b"bundle")?;
    add_spaced_number(out, u64::from(row.bundle.0))?;
    add_spaced_number(out, u64::from(row.state))?;
    add_spaced_number(out, u64::from(row.level))?;
    add_spaced(out, row.name.bytes())?;
    add_spaced(out, row.version.print(alloc)?.as_slice())
}

/// Adds the line of a bundle in a list.
fn add_bundle_row(
    alloc: Global,
    out: &mut Vec<u8>,
    depth: usize,
    row: &BundleRow,
) -> Result<(), AllocError>
    ensures added { OnOk result
        (out.new.items ≡ out.old.items ++ line_at depth (bundle_row_text row.now)) }
{
    add_indent(out, depth)?;
    add_bundle(alloc, out, row)?;
    out.push(b'\n')?;
    Ok(())
}

/// Adds the lines of a list of bundles.
pub fn add_bundles(
    alloc: Global,
    out: &mut Vec<u8>,
    depth: usize,
    rows: &[BundleRow],
) -> Result<(), AllocError>
    ensures added { OnOk result
        (out.new.items ≡ out.old.items ++ lines_at depth (map bundle_row_text rows.now)) }
{
    for row in rows {
        add_bundle_row(alloc, out, depth, row)?;
    }
    Ok(())
}
