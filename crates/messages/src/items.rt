// The first of some items, and the item at a place.
ghost use Rattle.std.specs.Prelude.{◌≡◌, take, get_or};

// The first n items, or all where there are fewer.
pub fn first<T>(items: &[T], n: usize) -> &[T]
    ensures { result.now ≡ take n items.now }
{
    &items[..n.min(items.len())]
}

// The item at a place, or another where there is none.
pub fn item_or<T: Copy>(items: &[T], place: usize, other: T) -> T
    ensures { result ≡ get_or items.now place other }
{
    items.get(place).copied().unwrap_or(other)
}
