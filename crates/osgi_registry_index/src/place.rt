//! Where a service stands among those of its class.

ghost use Rattle.std.specs.Prelude.{◌≡◌};

use crate::properties::ranking;
use osgi_base::ServiceId;
use osgi_model::Attribute;
use osgi_ops::Service;
use std::cmp::Reverse;

/// A place among the services of a class: higher rankings come first, then lower ids.
#[derive(Clone, Copy, PartialEq, Eq, PartialOrd, Ord)]
pub struct Place {
    ranking: Reverse<i32>,
    service: u64,
}

impl Place {
    ghost use Rattle.osgi_registry_index.specs.Places.{place_of, place_with};

    /// The place of a service with these properties.
    pub fn new(properties: &[Attribute], service: ServiceId) -> Place
        ensures place { result ≡ place_with properties.now service }
    {
        Place {
            ranking: Reverse(ranking(properties)),
            service: service.0,
        }
    }

    /// The place of the service.
    pub fn of(service: &Service) -> Place
        ensures place { result ≡ place_of service.now }
    {
        Place::new(service.properties.items(), service.service)
    }

    pub fn service(self) -> ServiceId
        ensures service { result.0 ≡ self.service }
    {
        ServiceId(self.service)
    }
}
