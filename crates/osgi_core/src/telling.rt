//! How a history is told. The function here is a fact of the definitions; it does nothing.

ghost use Rattle.std.specs.Prelude.{◌≡◌, List};
ghost use Rattle.osgi_legal.specs.Legal.{IsReplayed};
ghost use Rattle.osgi_ops.specs.Settings.{Setting};
ghost use Rattle.osgi_ops.specs.declared.entry.Entry.{Entry};
ghost use Rattle.osgi_world.specs.declared.world.World.{World};

/// A history can be told in one way only, so what a telling of it says holds of each.
pub fn told_once()
    ensures once { (setting : Setting) (history : List Entry) (w v : World)
        (one : IsReplayed setting history w) (other : IsReplayed setting history v)
        → one.told ≡ other.told }
{}
