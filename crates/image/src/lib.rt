// IMAGE contents (rules 4.5 to 4.8): the check, the header as a struct of numbers, the pixels as a part of the content, and the writer.
// A float is a u32 word, the number that its bits spell (rule 4.4).
#![tactic(auto)]

ghost use Rattle.std.specs.Prelude.{◌≡◌, ◌+◌, ◌*◌, ◌^◌, ◌≤◌, ◌<◌, [], ◌∷◌, take, drop, replicate, OnOk};
ghost use Rattle.fields.specs.Layout.{number_fields, stores};
ghost use Rattle.fields.specs.Checks.{or_else};
ghost use Rattle.fields.specs.Answer.{written_of, room_fault};
ghost use Rattle.fields.specs.Fault.{number_of};
ghost use Rattle.image.specs.Image.{three, header_numbers, header_widths, image_header_size};
ghost use Rattle.image.specs.ImageReader.{scalar_size, one_or_two, kind_ok, within, direction_ok, directions_ok, pixel_bytes, rule_fault, header_of, image_fault, image_read, image_of, pixels_of};
ghost use Rattle.image.specs.ImageWriter.{ImagePromise};

use fields::fault::Fault;
use fields::number::{Number, three};
use fields::room_fault;
use fields::slice::{first, rest};
use fields::store::put;

// The bytes before the pixels (rule 4.5).
pub const IMAGE_HEADER_SIZE: usize = 72;

// The 72 bytes before the pixels (rule 4.5), each field with the protocol's name for it.
#[derive(Clone, Copy, Default)]
pub struct ImageHeader {
    // V: any
    pub version: u16,
    // T: the number of components, at least 1
    pub components: u8,
    // S: the type of a scalar (rule 4.6)
    pub scalar_type: u8,
    // E: 1 or 2, the order of bytes in the pixels
    pub endian: u8,
    // O: 1 or 2, the coordinate system
    pub coordinate: u8,
    // RI RJ RK: pixels in each direction
    pub size: [u16; 3],
    // TX TY TZ, SX SY SZ, NX NY NZ: directions of i, j, k, as long as a pixel
    pub axis_i: [u32; 3],
    pub axis_j: [u32; 3],
    pub axis_k: [u32; 3],
    // PX PY PZ: the image's centre
    pub centre: [u32; 3],
    // DI DJ DK and DRI DRJ DRK: where the part that is sent begins, and its pixels in each direction
    pub offset: [u16; 3],
    pub sub_size: [u16; 3],
}

// The bytes of one scalar of type S; 0 where there is no such type.
#[tactic(auto, using(crate::proofs::Rule::scalar_le), unfolding(crate::specs::ImageReader::scalar_size))]
fn scalar_size(s: u8) -> usize
    ensures value { result ≡ scalar_size s }
    ensures bound { result ≤ 8 }
{
    let sizes = [0usize, 0, 1, 1, 2, 2, 4, 4, 0, 0, 4, 8];
    sizes.get(usize::from(s)).copied().unwrap_or(0)
}

fn one_or_two(n: u8) -> bool
    ensures { result ≡ one_or_two n }
{
    matches!(n, 1 | 2)
}

// T, S, E and O.
#[tactic(auto, unfolding(crate::specs::ImageReader::kind_ok))]
fn kind_ok(header: ImageHeader) -> bool
    ensures { result ≡ kind_ok header }
{
    1 <= header.components
        && 1 <= scalar_size(header.scalar_type)
        && one_or_two(header.endian)
        && one_or_two(header.coordinate)
}

// One direction: RI, DI and DRI (rule 4.7). The sum of two 16-bit numbers is formed in 32 bits.
#[tactic(auto, unfolding(crate::specs::ImageReader::within))]
fn within(size: u16, offset: u16, sub: u16) -> bool
    ensures { result ≡ within size offset sub }
{
    1 <= size && 1 <= sub && u32::from(offset) + u32::from(sub) <= u32::from(size)
}

#[tactic(auto, unfolding(crate::specs::ImageReader::direction_ok))]
fn direction_ok(header: ImageHeader, d: usize) -> bool
    requires { d < 3 }
    ensures { result ≡ direction_ok header d }
{
    within(header.size[d], header.offset[d], header.sub_size[d])
}

#[tactic(auto, unfolding(crate::specs::ImageReader::directions_ok))]
fn directions_ok(header: ImageHeader) -> bool
    ensures { result ≡ directions_ok header }
{
    direction_ok(header, 0) && direction_ok(header, 1) && direction_ok(header, 2)
}

// Below 2^59: no product leaves 64 bits.
fn product(components: u8, scalar: usize, i: u16, j: u16, k: u16) -> usize
    requires { scalar ≤ 8 }
    ensures value { result ≡ components * scalar * (i * j * k) }
    ensures bound { result < 2 ^ 59 }
{
    let pixels = i as usize * j as usize * k as usize;
    components as usize * scalar * pixels
}

// How many bytes of pixels the header asks for (rule 4.8).
fn pixel_bytes(header: ImageHeader) -> usize
    ensures value { result ≡ pixel_bytes header }
    ensures bound { result < 2 ^ 59 }
{
    let scalar = scalar_size(header.scalar_type);
    let sub = header.sub_size;
    product(header.components, scalar, sub[0], sub[1], sub[2])
}

// The rule for a header and n bytes of pixels.
#[tactic(auto, unfolding(crate::specs::ImageReader::rule_fault, crate::specs::ImageReader::header_ok))]
fn rule_fault(header: ImageHeader, n: usize) -> Result<(), Fault>
    ensures value { number_of result ≡ rule_fault header n }
    ensures bound { OnOk result (n < 2 ^ 59) }
{
    if kind_ok(header) && directions_ok(header) && n == pixel_bytes(header) {
        Ok(())
    } else {
        Err(Fault::Image)
    }
}

// The header that stands in the first 72 bytes.
fn header_of(content: &[u8]) -> ImageHeader
    ensures { result ≡ header_of content.now }
{
    ImageHeader {
        version: u16::read(content, 0),
        components: u8::read(content, 2),
        scalar_type: u8::read(content, 3),
        endian: u8::read(content, 4),
        coordinate: u8::read(content, 5),
        size: three(content, 6),
        axis_i: three(content, 12),
        axis_j: three(content, 24),
        axis_k: three(content, 36),
        centre: three(content, 48),
        offset: three(content, 60),
        sub_size: three(content, 66),
    }
}

// 9 where the content breaks the rule.
#[tactic(auto, unfolding(crate::specs::ImageReader::image_fault))]
pub fn image_fault(content: &[u8]) -> Result<(), Fault>
    ensures { number_of result ≡ image_fault content.now }
{
    if content.len() < IMAGE_HEADER_SIZE {
        return Err(Fault::Image);
    }
    rule_fault(header_of(content), content.len() - IMAGE_HEADER_SIZE)
}

// The header.
pub fn read_image(content: &[u8]) -> Result<ImageHeader, Fault>
    ensures { image_read result ≡ image_of content.now }
{
    image_fault(content)?;
    Ok(header_of(content))
}

// The part after the header; the empty part where the content is refused.
pub fn pixels(content: &[u8]) -> &[u8]
    ensures { result.now ≡ pixels_of content.now }
{
    match image_fault(content) {
        Ok(()) => rest(content, IMAGE_HEADER_SIZE),
        Err(_) => first(content, 0),
    }
}

fn put_halves(a: [u16; 3], at: usize, out: &mut [u8])
    requires { at < image_header_size }
    ensures { out.new ≡ stores out.old at (number_fields (2 ∷ 2 ∷ 2 ∷ []) (three a)) (2 ∷ 2 ∷ 2 ∷ []) }
{
    a[0].put(at, out);
    a[1].put(at + 2, out);
    a[2].put(at + 2 + 2, out);
}

fn put_words(a: [u32; 3], at: usize, out: &mut [u8])
    requires { at < image_header_size }
    ensures { out.new ≡ stores out.old at (number_fields (4 ∷ 4 ∷ 4 ∷ []) (three a)) (4 ∷ 4 ∷ 4 ∷ []) }
{
    a[0].put(at, out);
    a[1].put(at + 4, out);
    a[2].put(at + 4 + 4, out);
}

// V, T, S, E and O, at the front.
fn put_kind(header: ImageHeader, out: &mut [u8])
    ensures { out.new
        ≡ stores out.old 0 (number_fields (2 ∷ replicate 4 1) (take 5 (header_numbers header))) (2 ∷ replicate 4 1) }
{
    header.version.put(0, out);
    header.components.put(2, out);
    header.scalar_type.put(3, out);
    header.endian.put(4, out);
    header.coordinate.put(5, out);
}

// The four vectors, at 12.
fn put_vectors(header: ImageHeader, out: &mut [u8])
    ensures { out.new
        ≡ stores out.old 12 (number_fields (replicate 12 4) (take 12 (drop 8 (header_numbers header)))) (replicate 12 4) }
{
    let axis_i = header.axis_i;
    let axis_j = header.axis_j;
    let axis_k = header.axis_k;
    let centre = header.centre;
    put_words(axis_i, 12, out);
    put_words(axis_j, 24, out);
    put_words(axis_k, 36, out);
    put_words(centre, 48, out);
}

// Writes the 72 bytes of a header at the front.
fn put_header(header: ImageHeader, out: &mut [u8])
    ensures { out.new ≡ stores out.old 0 (number_fields header_widths (header_numbers header)) header_widths }
{
    let size = header.size;
    let offset = header.offset;
    let sub_size = header.sub_size;
    put_kind(header, out);
    put_halves(size, 6, out);
    put_vectors(header, out);
    put_halves(offset, 60, out);
    put_halves(sub_size, 66, out);
}

// 9, then 20. The length of the content is formed only where the rule bounds it.
fn write_fault(header: ImageHeader, n: usize, room: usize) -> Result<(), Fault>
    ensures value { number_of result ≡ or_else (rule_fault header n) (room_fault (image_header_size + n) room) }
    ensures bound { OnOk result (n < 2 ^ 59) }
{
    rule_fault(header, n)?;
    room_fault(IMAGE_HEADER_SIZE + n, room)
}

// Writes a content of this header and these pixels at the front of the buffer, or nothing where it refuses.
pub fn write_image(header: ImageHeader, pixels: &[u8], out: &mut [u8]) -> Result<usize, Fault>
    ensures { ImagePromise header pixels.now out.old (written_of result) out.new }
{
    write_fault(header, pixels.len(), out.len())?;
    put_header(header, out);
    put(pixels, IMAGE_HEADER_SIZE, out);
    Ok(IMAGE_HEADER_SIZE + pixels.len())
}
