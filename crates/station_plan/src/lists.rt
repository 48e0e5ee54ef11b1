//! Lists of values by number.

/// Writes a value at a place, if the list has it.
pub(crate) fn put<T: Copy>(list: &mut Vec<T>, place: usize, value: T) {
    if place < list.len() {
        list[place] = value;
    }
}

/// The value at a place, or `otherwise` where the list hasn't it.
pub(crate) fn at<T: Copy>(list: &Vec<T>, place: usize, otherwise: T) -> T {
    if place < list.len() {
        list[place]
    } else {
        otherwise
    }
}
