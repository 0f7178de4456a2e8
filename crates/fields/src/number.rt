// Big-endian numbers of 1, 2, 4 and 8 bytes.
ghost use Rattle.std.proofs.Common.{rules};
ghost use Rattle.std.specs.Prelude.{◌≡◌, ℕ, map, ◌≤◌, ◌<◌, ◌^◌, [], ◌∷◌};
ghost use Rattle.std.proofs.lemmas.List.Edits.{sets};
ghost use Rattle.fields.specs.Numbers.{be_at, be_bytes};
ghost use Rattle.fields.specs.Layout.{numbers_at};

// The largest number of two bytes.
pub const SIZE_LIMIT: usize = 65535;

// The number of the n bytes at a place, for every width.
fn be(s: &[u8], at: usize, n: usize) -> u64
    requires { n ≤ 8 }
    ensures value { result ≡ be_at n at s.now }
    ensures bound { result < 256 ^ n }
{
    let t = crate::slice::part(s, at, n);
    let mut v: u64 = 0;
    for &b in t {
        v = v * 256 + u64::from(b);
    }
    v
}

// A number of one width, with the most significant byte first.
pub trait Number: Copy {
    // How many bytes it takes.
    ghost WIDTH: { ℕ };

    // The number that it is.
    ghost value: { Self → ℕ };

    const WIDTH: usize;

    // The number at a place; bytes past the end are left out.
    fn read(s: &[u8], at: usize) -> Self
        ensures { value result ≡ be_at WIDTH at s.now };

    // Writes it at a place. What does not fit is left out.
    fn put(self, at: usize, out: &mut [u8])
        ensures { out.new ≡ sets out.old at (be_bytes WIDTH (value self)) };

    ghost narrow: { WIDTH ≤ 8 };
}

impl Number for u8 {
    ghost WIDTH = { 1 };

    ghost value = { λ n. n };

    ghost narrow = { Prim.search rules };

    const WIDTH: usize = 1;

    fn read(s: &[u8], at: usize) -> u8 {
        be(s, at, 1) as u8
    }

    fn put(self, at: usize, out: &mut [u8]) {
        put_be(u64::from(self), 1, at, out);
    }
}

impl Number for u16 {
    ghost WIDTH = { 2 };

    ghost value = { λ n. n };

    ghost narrow = { Prim.search rules };

    const WIDTH: usize = 2;

    fn read(s: &[u8], at: usize) -> u16 {
        be(s, at, 2) as u16
    }

    fn put(self, at: usize, out: &mut [u8]) {
        put_be(u64::from(self), 2, at, out);
    }
}

impl Number for u32 {
    ghost WIDTH = { 4 };

    ghost value = { λ n. n };

    ghost narrow = { Prim.search rules };

    const WIDTH: usize = 4;

    fn read(s: &[u8], at: usize) -> u32 {
        be(s, at, 4) as u32
    }

    fn put(self, at: usize, out: &mut [u8]) {
        put_be(u64::from(self), 4, at, out);
    }
}

impl Number for u64 {
    ghost WIDTH = { 8 };

    ghost value = { λ n. n };

    ghost narrow = { Prim.search rules };

    const WIDTH: usize = 8;

    fn read(s: &[u8], at: usize) -> u64 {
        be(s, at, 8)
    }

    fn put(self, at: usize, out: &mut [u8]) {
        put_be(self, 8, at, out);
    }
}

// Three numbers of one width, from a place on. Places are counted in what is left there, so that none overflows.
pub fn three<T: Number>(s: &[u8], at: usize) -> [T; 3]
    ensures { map T.value result ≡ numbers_at at (T.WIDTH ∷ T.WIDTH ∷ T.WIDTH ∷ []) s.now }
{
    let t = crate::slice::rest(s, at);
    [
        T::read(t, 0),
        T::read(t, T::WIDTH),
        T::read(t, T::WIDTH + T::WIDTH),
    ]
}

// Writes the last n bytes of v at a place, for every width.
fn put_be(v: u64, n: usize, at: usize, out: &mut [u8])
    requires { n ≤ 8 }
    ensures { out.new ≡ sets out.old at (be_bytes n v) }
{
    let b = v.to_be_bytes();
    crate::store::put(&b[8 - n..], at, out);
}
