//! The parts of a revision that are made of several lists.

ghost use Rattle.std.specs.Prelude.{◌≡◌, ◌≤◌, ◌++◌, length, map, IfOk};
ghost use Rattle.osgi_base.specs.declared.folder.File.{File};
ghost use Rattle.osgi_world.specs.declared.revision.TheConstants.{MAX_MEMBERS};
ghost use Rattle.osgi_manifest.specs.computed.Revisions.{itself_of, own_of};

use osgi_base::{Folder, List, Shared, Text};
use osgi_world::{Capability, MAX_MEMBERS};
use std::alloc::{AllocError, Global};

/// The items of the first list, and then those of the second.
fn append<T: Drop>(first: List<T>, second: List<T>) -> Result<List<T>, AllocError>
    ensures both { IfOk result (λ all. all ≡ first ++ second) }
{
    let mut all = first;
    for item in second.into_items() {
        all.push(item)?;
    }
    Ok(all)
}

/// The items of all three lists, where they are no more than a revision's members may be. There is no memory for more.
pub fn joined<T: Drop>(
    first: List<T>,
    second: List<T>,
    third: List<T>,
) -> Result<List<T>, AllocError>
    ensures all { IfOk result (λ all. all ≡ first ++ (second ++ third)) }
    ensures few { IfOk result (λ all. length all ≤ MAX_MEMBERS) }
{
    let others = append(second, third)?;
    let all = append(first, others)?;
    if all.items().len() > MAX_MEMBERS {
        return Err(AllocError);
    }
    Ok(all)
}

/// The bundle itself, as what it offers.
fn own(alloc: Global, name: &Text) -> Result<Capability, AllocError>
    ensures own { IfOk result (λ own. own ≡ own_of name.now) }
{
    let namespace = Text::of(alloc, b"osgi.wiring.bundle")?;
    let name = name.copy(alloc)?;
    Ok(Capability {
        namespace,
        name,
        attributes: Shared::new(alloc, List::new(alloc)?)?,
        uses: Shared::new(alloc, List::new(alloc)?)?,
        mandatory: Shared::new(alloc, List::new(alloc)?)?,
    })
}

/// The bundle itself, unless it is a fragment.
pub fn offers_itself(
    alloc: Global,
    name: &Text,
    is_fragment: bool,
) -> Result<List<Capability>, AllocError>
    ensures own { IfOk result (λ all. all ≡ itself_of is_fragment name.now) }
{
    let mut all = List::new(alloc)?;
    if !is_fragment {
        all.push(own(alloc, name)?)?;
    }
    Ok(all)
}

/// The paths of the folder's files.
pub fn file_paths(alloc: Global, folder: &Folder) -> Result<List<Text>, AllocError>
    ensures paths { IfOk result (λ paths. paths ≡ map (λ (f : File). f.path) folder.now.files) }
{
    let mut paths = List::with_capacity(alloc, folder.files.items().len())?;
    for file in folder.files.items() {
        paths.push(file.path.copy(alloc)?)?;
    }
    Ok(paths)
}
