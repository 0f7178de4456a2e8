// What the readers of headers answer:
//
//   H stream   the header's number and fields, its CRC as 16 hexadecimal digits, and its mark; the type and the device name
//   s stamp    the seconds and the nanoseconds of a time stamp of eight bytes
use fields::number::Number;
use std::io;
use vector_records::{print_bytes, print_crc, print_mark, print_number};

pub fn print_header(rt: &impl Print, stream: &[u8]) -> io::Result<()> {
    let read = header::read_header(stream);
    print_number(rt, read.number as u64)?;
    print_number(rt, read.version as u64)?;
    print_number(rt, read.type_len as u64)?;
    print_number(rt, read.name_len as u64)?;
    print_number(rt, read.time_stamp)?;
    print_number(rt, read.body_size as u64)?;
    print_crc(rt, read.crc)?;
    print_mark(rt, read.clean)?;
    print_bytes(rt, header::type_text(stream, read))?;
    print_bytes(rt, header::device_name(stream, read))
}

pub fn print_stamp(rt: &impl Print, stamp: &[u8]) -> io::Result<()> {
    let time_stamp = u64::read(stamp, 0);
    let seconds = header::time_stamp::seconds(time_stamp);
    let nanoseconds = header::time_stamp::nanoseconds(time_stamp);
    print!(rt; " {seconds} {nanoseconds}")
}
