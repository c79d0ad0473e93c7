//! What is kept of what was found at a location.

ghost use Rattle.std.specs.Prelude.{◌≡◌, [], IfOk};
ghost use Rattle.osgi_depot.specs.computed.Keeping.{IsKept, IsMeant, IsScriptIn, IsScriptKept};
ghost use Rattle.osgi_manifest.specs.Manifests as spec;

use osgi_base::{Folder, List, Shared};
use osgi_manifest::{Meaning, manifest_file, read_meaning};
use osgi_ops::Stored;
use osgi_outside::Found;
use osgi_session::Script;
use std::alloc::{AllocError, Global};

/// What is kept of a location.
pub struct Kept {
    /// What the depot stores.
    pub stored: Stored,
    /// The script of the bundle there.
    pub script: Script,
}

impl Kept {
    /// What is stored of a location where no revision was read. Its script has no sections.
    pub fn without_script(alloc: Global, stored: Stored) -> Result<Kept, AllocError>
        ensures stored { IfOk result (λ kept. kept.stored ≡ stored) }
        ensures script { IfOk result (λ kept. kept.script.sections ≡ []) }
    {
        let sections = List::new(alloc)?;
        Ok(Kept {
            stored,
            script: Script { sections },
        })
    }
}

/// A revision that a folder means, with the text of the folder's manifest, and the revision's script.
fn keep_meaning(alloc: Global, folder: &Folder, meaning: Meaning) -> Result<Kept, AllocError>
    requires meant { spec.IsMeaning folder.now meaning }
    ensures meant { IfOk result (λ kept. IsMeant folder.now kept.stored) }
    ensures script { IfOk result (λ kept. IsScriptIn folder.now kept.stored kept.script) }
{
    let Some(file) = manifest_file(folder) else {
        unreachable!()
    };
    let manifest = file.bytes.copy(alloc)?;
    let (revision, script) = meaning.into_parts();
    Ok(Kept {
        stored: Stored::Read {
            revision: Shared::new(alloc, revision)?,
            manifest,
        },
        script,
    })
}

/// The revision that a folder means and its script, or the fault of the folder's manifest.
fn keep_folder(alloc: Global, folder: &Folder) -> Result<Kept, AllocError>
    ensures meant { IfOk result (λ kept. IsMeant folder.now kept.stored) }
    ensures script { IfOk result (λ kept. IsScriptIn folder.now kept.stored kept.script) }
{
    match read_meaning(alloc, folder)? {
        Ok(meaning) => keep_meaning(alloc, folder, meaning),
        Err(fault) => Kept::without_script(alloc, Stored::Bad(fault)),
    }
}

/// What is kept of what was found, where the shelf's count of faults went from one number to the other.
pub fn keep(alloc: Global, found: Found, before: u64, after: u64) -> Result<Kept, AllocError>
    ensures stored { IfOk result (λ kept. IsKept found before after kept.stored) }
    ensures script { IfOk result (λ kept. IsScriptKept found kept.stored kept.script) }
{
    match found {
        Found::Folder(folder) => keep_folder(alloc, &folder),
        Found::NoFolder => Kept::without_script(alloc, Stored::NoFolder),
        Found::TooLarge { bytes, files } => {
            Kept::without_script(alloc, Stored::TooLarge { bytes, files })
        }
        Found::Failed => Kept::without_script(alloc, Stored::Failed { before, after }),
    }
}
