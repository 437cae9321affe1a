// Prints parts of an answer.
use std::fmt::Display;
use std::io;
use std::io::Write;

// A longer print is given by its length and its CRC-32.
const MOST_SHOWN: usize = 4096;

pub(crate) fn print(to: &mut impl Write, text: &[u8]) -> io::Result<()> {
    to.write_all(text)
}

pub(crate) fn print_number(to: &mut impl Write, n: u64) -> io::Result<()> {
    write!(to, "{n}")
}

pub(crate) fn print_refusal(to: &mut impl Write, number: u64, place: usize) -> io::Result<()> {
    write!(to, " => refused {number} at {place}")
}

// How many, and of what.
pub(crate) fn print_count(to: &mut impl Write, n: usize, unit: &[u8]) -> io::Result<()> {
    write!(to, " => {n}")?;
    print(to, unit)
}

pub(crate) fn print_words(to: &mut impl Write, words: &[u32]) -> io::Result<()> {
    print(to, b" =>")?;
    print_each(to, words)
}

// Each after a space.
pub(crate) fn print_each<T: Display>(to: &mut impl Write, items: &[T]) -> io::Result<()> {
    for item in items {
        write!(to, " {item}")?;
    }
    Ok(())
}

// Bytes in quotes, with the escapes of `lines`, or how many there are and their checksum.
pub(crate) fn print_bytes(to: &mut impl Write, bytes: &[u8]) -> io::Result<()> {
    if MOST_SHOWN < bytes.len() {
        print_count(to, bytes.len(), b" bytes, CRC-32 ")?;
        return print_number(to, u64::from(crc32(bytes)));
    }
    print(to, b" => \"")?;
    for b in bytes {
        print_escape(to, *b)?;
    }
    print(to, b"\"")
}

// Kept: the arm is the form of a byte, and each prints.
fn print_escape(to: &mut impl Write, b: u8) -> io::Result<()> {
    match b {
        b'\n' => print(to, b"\\n"),
        b'\t' => print(to, b"\\t"),
        b'\r' => print(to, b"\\r"),
        b'\\' => print(to, b"\\\\"),
        b' '..=b'~' => print(to, &[b]),
        _ => write!(to, "\\x{b:02x}"),
    }
}

// The checksum of bytes: the reflected polynomial 0xEDB88320, complemented before and after.
fn crc32(bytes: &[u8]) -> u32 {
    !crc_bytes(!0, bytes)
}

pub(crate) fn crc_bytes(sum: u32, bytes: &[u8]) -> u32 {
    bytes.iter().fold(sum, |s, b| crc_byte(s, *b))
}

fn crc_byte(sum: u32, b: u8) -> u32 {
    (0..8).fold(sum ^ u32::from(b), |s, _| crc_bit(s))
}

fn crc_bit(s: u32) -> u32 {
    if s & 1 == 1 {
        return (s >> 1) ^ 0xEDB88320;
    }
    s >> 1
}
