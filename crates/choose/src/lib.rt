// Choosing the foremost of a list, once for every kind of key whose order is total.
#![tactic(auto)]

ghost use Rattle.std.specs.Prelude.{◌≡◌, length, is_some, None, slice_index_or};
ghost use Rattle.std.specs.Ordering.{is_lt};
ghost use Rattle.choose.specs.Foremost.{foremost, goes_ahead, IsForemost};

// The place of the foremost key in a list with absent entries: the least, and of several that are level the first; none where all
// are absent.
pub fn foremost<K: Ord + Copy>(keys: &[Option<K>]) -> Option<usize>
    ensures place { result ≡ foremost (λ i. is_some (slice_index_or keys.now i None)) (goes_ahead (λ x y. is_lt (K.Ord.cmp x y)) keys.now) (length keys.now) }
    ensures law { IsForemost (λ i. is_some (slice_index_or keys.now i None)) (goes_ahead (λ x y. is_lt (K.Ord.cmp x y)) keys.now) (length keys.now) result }
{
    keys.iter()
        .enumerate()
        .filter_map(|(place, key)| key.map(|key| (place, key)))
        .min_by_key(|(_, key)| *key)
        .map(|(place, _)| place)
}
