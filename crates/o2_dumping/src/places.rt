// The numbers of segments in an image.
ghost use Rattle.std.specs.Prelude.{◌≡◌, ◌<◌, length, slice_index, nat_lt};
ghost use Rattle.o2_dumping.specs.Told.{numbers, place_among};

use o2_store::Store;

// Whether the k-th number with a segment lies below one.
fn is_below(store: &Store, k: u32, key: u32) -> bool
    requires { k < length (numbers store.now) }
    ensures { result ≡ nat_lt (slice_index (numbers store.now) k) key }
{
    match store.entry(k) {
        Some(id) => id.key < key,
        None => false,
    }
}

// The number of a segment in an image: how many numbers with a segment lie below its own.
pub(crate) fn place_among(store: &Store, key: u32) -> u32
    ensures { result ≡ place_among (numbers store.now) key }
{
    let mut low = 0u32;
    let mut high = store.live();
    while low < high {
        let middle = low + (high - low) / 2;
        if is_below(store, middle, key) {
            low = middle + 1;
        } else {
            high = middle;
        }
    }
    low
}
