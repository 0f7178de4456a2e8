// Parts of a lent slice, and whether two slices hold the same bytes.
ghost use Rattle.std.specs.Prelude.{◌≡◌, take, drop};
ghost use Rattle.fields.specs.Bytes.{part, same};

// The first n bytes, or all where there are fewer.
pub fn first(s: &[u8], n: usize) -> &[u8]
    ensures { result.now ≡ take n s.now }
{
    if n <= s.len() { &s[..n] } else { s }
}

// What is left after n bytes; nothing where there are fewer.
pub fn rest(s: &[u8], n: usize) -> &[u8]
    ensures { result.now ≡ drop n s.now }
{
    if n <= s.len() { &s[n..] } else { &s[..0] }
}

// The n bytes from a place on, or as many of them as there are.
pub fn part(s: &[u8], at: usize, n: usize) -> &[u8]
    ensures { result.now ≡ part n at s.now }
{
    first(rest(s, at), n)
}

// Do the two slices hold the same bytes?
pub fn same(a: &[u8], b: &[u8]) -> bool
    ensures { result ≡ same a.now b.now }
{
    a == b
}
