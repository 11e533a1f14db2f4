// Parts of bytes and of words, for every number: a part that would run past the end is cut there.

// What follows the first n items.
pub fn after<T>(items: &[T], n: usize) -> &[T] {
    items.get(n..).unwrap_or(&[])
}

// The first n items.
pub fn front<T>(items: &[T], n: usize) -> &[T] {
    items.get(..n).unwrap_or(items)
}
