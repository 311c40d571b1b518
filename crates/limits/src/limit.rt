//! The limits: how large what is read and written may be. docs/FORMATS.md, "Limits".

/// The most bytes of one object: a data file, a manifest, a manifest list or a metadata file.
pub const OBJECT: u64 = 67_108_864;

/// The most bytes of the input of a command, but for `rows`.
pub const INPUT: u64 = 16_777_216;

/// The most bytes of the input of `rows`.
pub const ROWS_INPUT: u64 = 67_108_864;

/// The most rows of one data file.
pub const FILE_ROWS: u64 = 1_048_576;
