//! What a core is expected to say.

/// A core's bytes, and what other tools read in it.
pub struct Listed {
    pub bytes: &'static [u8],
    /// The id of each thread, and its registers in the order of `pr_reg`.
    pub threads: &'static [(u32, &'static [u64])],
    /// The entries of the auxiliary vector.
    pub auxiliary: &'static [(u64, u64)],
    /// The start, the end, the offset and the name of each mapped file.
    pub files: &'static [(u64, u64, u64, &'static [u8])],
    /// Addresses, and the words there.
    pub words: &'static [(u64, u64)],
}
