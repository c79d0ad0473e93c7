//! The rows of the depot that live bundles come from.

ghost use Rattle.std.specs.Prelude.{◌≡◌};
ghost use Rattle.std.specs.Option.{option_map_or};
ghost use Rattle.osgi_bundle.specs.Rows.{row_at};
ghost use Rattle.osgi_bundle.specs.declared.kept.BundleKept.{BundleKept};

use osgi_base::BundleId;
use osgi_bundle::Table;

/// The row of the depot that a live bundle comes from; 0 where there is no such bundle.
pub fn depot_row(bundles: &Table, bundle: BundleId) -> u32
    ensures row { result
        ≡ option_map_or (λ (row : BundleKept). row.row) (row_at bundle bundles.now.rows) 0 }
{
    match bundles.row(bundle) {
        Some(row) => row.row,
        None => 0,
    }
}
