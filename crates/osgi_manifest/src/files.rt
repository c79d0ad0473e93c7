//! The files of a bundle's folder.

ghost use Rattle.std.specs.Prelude.{◌≡◌};
ghost use Rattle.std.specs.Option.{option_copied};
ghost use Rattle.osgi_manifest.specs.Manifests as spec;

use osgi_base::{File, Folder};

/// The path of a bundle's manifest.
const MANIFEST: &[u8] = b"META-INF/MANIFEST.MF";

/// The file of the path, if the folder has one.
pub fn file_at<'a>(path: &[u8], folder: &'a Folder) -> Option<&'a File>
    ensures file { option_copied result ≡ spec.file_at path.now folder.now }
{
    for file in folder.files.items() {
        if file.path.bytes() == path {
            return Some(file);
        }
    }
    None
}

/// The file that is the manifest, `META-INF/MANIFEST.MF`, if the folder has one.
pub fn manifest_file(folder: &Folder) -> Option<&File>
    ensures file { option_copied result ≡ spec.file_at spec.manifest_path folder.now }
{
    file_at(MANIFEST, folder)
}
