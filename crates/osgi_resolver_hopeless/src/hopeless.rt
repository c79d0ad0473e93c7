//! Whether what a search has decided is hopeless.

ghost use Rattle.std.specs.Prelude.{IfOk};
ghost use Rattle.std.specs.Bool.{Decides};
ghost use Rattle.osgi_world.specs.Hopeless.{IsHopeless};
ghost use Rattle.osgi_resolver_path.specs.Standing.{At};

use crate::clashing::has_clash;
use crate::offer::has_lost;
use crate::rivals::has_any_rivals;
use crate::settled::unsettled;
use crate::stuck::has_stuck_member;
use osgi_resolver_path::Path;
use std::alloc::{AllocError, Global};

/// Whether no wirings that extend those of the world are left to decide, as far as what is settled shows.
pub fn is_hopeless(alloc: Global, path: &Path) -> Result<bool, AllocError>
    ensures hopeless { IfOk result (λ b. At path.now (λ P _.
        Decides b (IsHopeless P path.now.word))) }
{
    if has_stuck_member(alloc, path)? {
        return Ok(true);
    }
    if has_any_rivals(alloc, path)? {
        return Ok(true);
    }
    let unsettled = unsettled(alloc, path)?;
    if has_lost(path, &unsettled) {
        return Ok(true);
    }
    Ok(has_clash(alloc, path, &unsettled)?)
}
