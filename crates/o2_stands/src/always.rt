// What is true of every store and of all maps.
ghost use Rattle.o2_stands.specs.Stands.{AreLawful};

use o2_regions::Regions;
use o2_store::Store;

/// What is true of every store and of all maps.
pub fn lawful(store: &Store, regions: &Regions)
    ensures { AreLawful store.now regions.now }
{
    store.law();
    regions.law();
}
