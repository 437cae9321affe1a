// Slices of numbers. One of more than `MOST_NUMBERS` is printed by how many it has and their CRC-32.
use crate::show::{crc_bytes, print, print_each};
use std::io;
use std::io::Write;

const MOST_NUMBERS: usize = 256;

// Each number after a space, or the checksum of the numbers as two bytes each, the high one first.
pub(crate) fn print_numbers(to: &mut impl Write, numbers: &[u16], unit: &[u8]) -> io::Result<()> {
    if numbers.len() <= MOST_NUMBERS {
        return print_each(to, numbers);
    }
    let sum = !numbers
        .iter()
        .fold(!0, |sum, n| crc_bytes(sum, &n.to_be_bytes()));
    write!(to, " {}", numbers.len())?;
    print(to, unit)?;
    write!(to, "{sum}")
}

// The first `n` items of a slice, or all.
pub(crate) fn most<T>(n: u32, items: &mut [T]) -> &mut [T] {
    let room = items.len().min(n as usize);
    &mut items[..room]
}

// Whether all items are equal to one.
pub(crate) fn are<T: PartialEq>(items: &[T], item: &T) -> bool {
    items.iter().all(|x| x == item)
}
