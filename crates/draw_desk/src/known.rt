//! What a desk knows of its file, and what was checked.

use crate::outside::Verdict;
use crate::own_text::OwnText;

/// The text of the file as it was read or written last, none where no file was there, and its number: a page says by the number
/// which text it knows.
#[derive(Drop)]
pub struct Known {
    pub number: u64,
    pub text: Option<OwnText>,
}

/// The text that was checked last, and what was said of it.
#[derive(Drop)]
pub struct Checked {
    pub text: OwnText,
    pub verdict: Verdict,
}
