// The CRC:
//
//   K bytes   their CRC, 16 hexadecimal digits
use std::io;

pub fn print_crc(rt: &impl Print, bytes: &[u8]) -> io::Result<()> {
    vector_records::print_crc(rt, crc64::crc64(bytes))
}
