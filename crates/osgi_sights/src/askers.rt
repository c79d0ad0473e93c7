//! Who is asked whether it sees a happening.

ghost use Rattle.std.specs.Prelude.{◌≡◌};
ghost use Rattle.osgi_listeners.specs.Rows.{AreInOrder};
ghost use Rattle.osgi_sights.specs.Shown.{shown};
ghost use Rattle.osgi_sights.specs.computed.Asking.{askers};

use crate::happening::Happening;
use crate::merged::Merged;
use osgi_listeners::Listeners;
use osgi_ops::Kind;

/// The listeners of the kinds that can see the happening, by rising id.
pub fn askers<'a>(listeners: &'a Listeners, happening: &Happening<'_>) -> Merged<'a>
    ensures askers { result ≡ askers (shown happening.now) listeners.now.rows }
    ensures in_order { AreInOrder listeners.now }
{
    match happening {
        Happening::Service { .. } | Happening::Modified { .. } => Merged::new(
            listeners.of_kind(Kind::Service),
            listeners.of_kind(Kind::All),
        ),
        Happening::Bundle { .. } => Merged::new(listeners.of_kind(Kind::Bundle), &[]),
        Happening::Framework { .. } => Merged::new(listeners.of_kind(Kind::Framework), &[]),
    }
}
