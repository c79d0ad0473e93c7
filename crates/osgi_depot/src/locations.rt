//! The locations that lines name.

ghost use Rattle.std.specs.Prelude.{◌≡◌, ◌++◌, [], ◌∷◌, List, ℕ, IfOk, OnOk};
ghost use Rattle.std.specs.Option.{option_copied};
ghost use Rattle.osgi_depot.specs.Depots as spec;
ghost use Rattle.osgi_depot.specs.computed.Locations.{AreSeen};

use osgi_base::Text;
use osgi_session::{Command, Content, Line};
use std::alloc::{AllocError, Global};
use std::collections::BTreeSet;

/// The location that a line names, where its command installs or updates a bundle.
fn location_in(content: &Content) -> Option<&Text>
    ensures location { option_copied result ≡ spec.location_in content.now }
{
    let Content::Run(command) = content else {
        return None;
    };
    match command {
        Command::Install { location } | Command::Update { location, .. } => Some(location),
        _ => None,
    }
}

/// Adds a text that a line names to those that were seen, and to the locations where it is new.
fn add(
    alloc: Global,
    seen: &mut BTreeSet<Text>,
    locations: &mut Vec<Text>,
    location: &Text,
) -> Result<(), AllocError>
    ensures seen { (named : List (List ℕ))
        → AreSeen seen.old locations.old.items named
        → OnOk result (AreSeen seen.new locations.new.items (named ++ location.now ∷ [])) }
{
    if seen.insert(location.copy(alloc)?)? {
        locations.push(location.copy(alloc)?)?;
    }
    Ok(())
}

/// The locations that the lines name, each once, in order of first naming.
pub fn locations(alloc: Global, lines: &[Line]) -> Result<Vec<Text>, AllocError>
    ensures locations { IfOk result (λ locations. locations.items ≡ spec.locations_in lines.now) }
{
    let mut seen = BTreeSet::new(alloc);
    let mut locations = Vec::new(alloc);
    for line in lines {
        if let Some(location) = location_in(&line.content) {
            add(alloc, &mut seen, &mut locations, location)?;
        }
    }
    Ok(locations)
}
