//! Tables that are read and written at any place: past its end a table gives what the reader says, and takes nothing.

/// The item at a place, or another where there is none.
pub fn at<T: Copy>(items: &[T], place: usize, otherwise: T) -> T {
    match items.get(place) {
        Some(item) => *item,
        None => otherwise,
    }
}

/// Writes an item at a place, if it is there.
pub fn put<T: Copy>(items: &mut [T], place: usize, item: T) {
    if place < items.len() {
        items[place] = item;
    }
}

/// The place of a column of a row, in a table of rows as wide as that.
pub fn cell(row: usize, width: usize, column: usize) -> usize {
    row.wrapping_mul(width).wrapping_add(column)
}

/// A number in 32 bits, or the greatest one.
pub fn small(number: usize) -> u32 {
    if number > u32::MAX as usize {
        u32::MAX
    } else {
        number as u32
    }
}

/// The lowest eight bits of a number.
pub fn byte(number: usize) -> u8 {
    (number & 255) as u8
}

/// The word with one bit.
pub fn bit(place: u8) -> u32 {
    1 << (place % 32) as u32
}
