// CRC-64 as ECMA-182 defines it (rule 2.3), computed bit by bit.
#![tactic(auto)]

ghost use Rattle.std.specs.Prelude.{◌≡◌};
ghost use Rattle.crc64.specs.Crc.{bit_step, byte_step, crc_of};

// The polynomial below x^64; the term x^64 itself is the bit that leaves the register.
const POLYNOMIAL: u64 = 0x42F0E1EBA9EA3693;

// One bit into the register. It is compared with the bit that leaves the register, so that no zero
// bits have to follow the body.
fn bit_step(register: u64, bit: u64) -> u64
    ensures { result ≡ bit_step register bit }
{
    if register >> 63 == bit {
        register << 1
    } else {
        (register << 1) ^ POLYNOMIAL
    }
}

// One byte into a register that holds `start`, most significant bit first.
fn byte_step(start: u64, byte: u8) -> u64
    ensures { result ≡ byte_step start byte }
{
    let value = byte as u64;
    let mut register = start;
    for i in 0..8u64 {
        let shift = 7 - i;
        register = bit_step(register, (value >> shift) % 2);
    }
    register
}

// The CRC of a body of any length, 0 for an empty one.
pub fn crc64(bytes: &[u8]) -> u64
    ensures { result ≡ crc_of bytes.now }
{
    let mut register: u64 = 0;
    for byte in bytes {
        register = byte_step(register, *byte);
    }
    register
}
