// The descriptors of all who hold a segment say where it is.
ghost use Rattle.std.specs.Prelude.{◌≡◌, ℕ, ◌-◌, None, IsSome, Option};
ghost use Rattle.o2_desc.specs.Bytes.{empty};
ghost use Rattle.o2_regions.specs.Described.{Describes};
ghost use Rattle.o2_regions.specs.Maps.{held_at};
ghost use Rattle.o2_segbus.specs.Settled.{IsSettled, descriptor_at};
ghost use Rattle.o2_store.specs.Shelf.{base_of, entry, entry_of, place_of};
ghost use Rattle.o2_service.specs.Told.{AreToldBefore, AreToldBut, Follows, IsHeldWell, OnlyTables};

use crate::amount::size_of;
use o2_place::SegId;
use o2_regions::Regions;
use o2_store::Store;

/// Says in the descriptors of those who hold a live segment where it is.
pub fn settle_one(store: &Store, regions: &mut Regions, id: SegId)
    requires { IsSome (entry_of store.now id) }
    ensures { (base : Option ℕ) → base_of (entry_of store.now id) (place_of store.now id.key) ≡ base
        → Describes regions.old regions.new id base ((entry store.now id.key).size - 1) }
{
    tell(store, regions, id, store.base(id));
}

// Says in the descriptors of those who hold a live segment that it is in memory from this base on, or that it isn't.
fn tell(store: &Store, regions: &mut Regions, id: SegId, base: Option<u32>)
    requires { IsSome (entry_of store.now id) }
    ensures { Describes regions.old regions.new id base ((entry store.now id.key).size - 1) }
{
    store.law();
    let size = size_of(store, id);
    regions.describe(id, base, (size - 1) as u16);
}

/// Says in each descriptor of each process where its segment is. The work is that of going over all numbers of segments,
/// and over those who hold a live one.
pub fn settle(store: &Store, regions: &mut Regions)
    requires held { IsHeldWell store.now regions.old }
    requires empty { (pid i : ℕ) → held_at regions.old pid i ≡ None
        → descriptor_at regions.old pid i ≡ empty }
    ensures settled { IsSettled store.now regions.new }
    ensures maps { OnlyTables regions.old regions.new }
{
    store.law();
    for key in 0..store.segments() {
        if let Some(id) = store.numbered(key) {
            tell(store, regions, id, store.base(id));
        }
    }
}

/// Says in the descriptors of those who hold a live segment where it is, where those of all other segments say so already. The
/// work is that of going over its holders.
pub fn settle_moved(store: &Store, regions: &mut Regions, id: SegId)
    requires live { IsSome (entry_of store.now id) }
    requires held { IsHeldWell store.now regions.old }
    requires others { AreToldBut id.key store.now regions.old }
    ensures follows { Follows regions.old store.now regions.new }
{
    store.law();
    tell(store, regions, id, store.base(id));
}

/// Says in the descriptors of the segments in memory from one on, by rising place, where they are, where those of all other
/// segments say so already. The work is that of going over the holders of these.
pub(crate) fn settle_slid(store: &Store, regions: &mut Regions, from: u32)
    requires held { IsHeldWell store.now regions.old }
    requires before { AreToldBefore from store.now regions.old }
    ensures follows { Follows regions.old store.now regions.new }
{
    store.law();
    for k in from..store.present_count() {
        let id = store.present_at(k);
        tell(store, regions, id, store.base(id));
    }
}
