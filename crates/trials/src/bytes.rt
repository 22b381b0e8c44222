// Bytes: the first of them.

// The first n bytes; none where there are fewer.
pub fn first(s: &[u8], n: usize) -> &[u8] {
    if s.len() < n { &s[0..0] } else { &s[..n] }
}
