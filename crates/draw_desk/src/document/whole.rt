//! The end of the page.

/// Joins the parts that came before.
macro_rules! whole {
    ([$($part:literal)*]) => {
        concat!($($part),*)
    };
}

pub(crate) use whole;
