//! Tables of places, each free or taken by a key and what is noted under it.

/// A place that is free, or holds a key and what is noted under it.
pub type Place<K, V> = Option<(K, V)>;

/// What is noted under a key, or `None` where nothing is.
pub(crate) fn get<K: Copy + Eq, V: Copy>(places: &[Place<K, V>], key: K) -> Option<V> {
    let (_, value) = places.iter().flatten().find(|(taken, _)| *taken == key)?;
    Some(*value)
}

/// What is noted under a key, to be changed, or `None` where nothing is.
pub(crate) fn get_mut<K: Copy + Eq, V: Copy>(places: &mut [Place<K, V>], key: K) -> Option<&mut V> {
    let (_, value) = places
        .iter_mut()
        .flatten()
        .find(|(taken, _)| *taken == key)?;
    Some(value)
}

/// Notes a value under a key, in place of what was noted under it, or else in the first free place. Where none is
/// free, nothing is noted.
pub(crate) fn insert<K: Copy + Eq, V: Copy>(places: &mut [Place<K, V>], key: K, value: V) {
    // places are taken from the front and are never freed: the key's own place lies before the free ones
    let place = places
        .iter()
        .position(|place| place.is_none_or(|(taken, _)| taken == key));
    if let Some(place) = place {
        places[place] = Some((key, value));
    }
}
