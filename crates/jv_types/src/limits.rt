//! Limits that code knows, each as the definitions have it.

/// The most bytes that a manifest, an update's text or a class file has.
pub const MOST_FILE_BYTES: u64 = 1_048_576;

/// The most bytes that the code of a method has (JVMS 4.7.3).
pub const MOST_CODE_BYTES: u32 = 65_535;

/// The most words that a frame has for its locals and its stack.
pub const MOST_FRAME_WORDS: u32 = 4096;

/// The most steps that a thread makes in its turn.
pub const MOST_SLICE_STEPS: usize = 64;
