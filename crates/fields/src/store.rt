// Bytes written into a lent buffer, or copied into an array.
ghost use Rattle.std.specs.Prelude.{◌≡◌};
ghost use Rattle.std.proofs.lemmas.List.Edits.{sets};
ghost use Rattle.fields.specs.Bytes.{sized};

// Writes the bytes of src from a place on. What does not fit is left out.
pub fn put(src: &[u8], at: usize, out: &mut [u8])
    ensures { out.new ≡ sets out.old at src.now }
{
    if out.len() <= at {
        return;
    }
    let t = crate::slice::first(src, out.len() - at);
    // A call of the library's copy would have the archive for C need a name more from outside.
    for i in 0..t.len() {
        out[at + i] = t[i];
    }
}

// The first N bytes of s, with zeros after them where there are fewer.
pub fn array<const N: usize>(s: &[u8]) -> [u8; N]
    ensures { result ≡ sized N s.now }
{
    let mut a = [0; N];
    put(s, 0, &mut a);
    a
}
