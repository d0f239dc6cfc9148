//! Manifests, as definitions: what the text that names a program says, or the first of its lines at
//! which something is wrong, and what. It has no function.
//!
//! Read `Items` first (what a line of a manifest or of an update's text brings: a class, in a file or
//! in lines of the text itself), then `ManifestLines` (what each line says by itself, or its least
//! fault) and `Manifest`, which is the whole: a text is cut into lines, these into statements, each
//! with the block that it opens (`Blocks` of `assembler_model`), and statements say together which
//! class is the main one, and the items in order.
//!
//! A fault of a line comes of its own form or of its context: a second main class, one item more than
//! the limit, a block without an end. All faults of a text make one list, and the one that is told is
//! that of the least line, and there of the least rank, wherever in the list it stands.
#![tactic(auto)]
