//! Filters from their texts.

ghost use Rattle.std.specs.Prelude.{◌≡◌, IfErr, IfOk, IsOkAnd};
ghost use Rattle.osgi_version.specs.FaultPlaces.{IsLongestPrefix};
ghost use Rattle.osgi_model.specs.Filters.{ReadsFilter, IsReadableFilter};
ghost use Rattle.osgi_model.specs.declared.filter.Filter.{Filter};

use crate::fault::FilterFault;
use crate::filters::whole_at;
use osgi_base::Stop;
use osgi_model::Filter;
use std::alloc::{AllocError, Global};

/// The filter that the bytes read as, or where they stop being one.
pub fn parse(alloc: Global, bytes: &[u8]) -> Result<Result<Filter, FilterFault>, AllocError>
    ensures reads { IfOk result (λ r. IfOk r (ReadsFilter bytes.now)) }
    ensures only { (filter : Filter) → ReadsFilter bytes.now filter → IfOk result (λ r. IsOkAnd r (λ f. f ≡ filter)) }
    ensures one_tree { (one other : Filter) → ReadsFilter bytes.now one → ReadsFilter bytes.now other → one ≡ other }
    ensures fault { IfOk result (λ r. IfErr r (λ fault. (¬ IsReadableFilter bytes.now) × IsLongestPrefix IsReadableFilter bytes.now fault.at)) }
{
    match whole_at(alloc, bytes) {
        Ok(filter) => Ok(Ok(filter)),
        Err(Stop::Fault(left)) => Ok(Err(FilterFault {
            at: (bytes.len() - left) as u64,
        })),
        Err(Stop::Memory) => Err(AllocError),
    }
}
