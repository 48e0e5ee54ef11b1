//! What a long run is asked of its files.

/// What a long run is asked of its files, beside the path of its record.
#[derive(Clone, Copy, Debug)]
pub struct RunFiles<'a> {
    /// How many bytes a part of the record has, where it is to stand in parts.
    pub record_size: Option<u64>,
    /// The path of the file that ends the run by being there, if there is to be one.
    pub stop_file: Option<&'a str>,
}
