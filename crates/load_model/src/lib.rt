//! Loading, as definitions: what a manifest's items bring, each class from its file or from its
//! lines in the manifest, or the first refusal; and the names of the files that loading comes to,
//! in order. It has no function.
//!
//! Read `Loading` first (an answer, the names that were asked for, and how one loading goes on
//! behind another), then `LoadClasses` (one class: the limits on files, its reading, its code, its
//! name) and `LoadItems` (the items in order). `Reads` is what is known of files before a call and
//! after it.
//!
//! An item is read directly after the ones before it, and the first refusal ends all. It stands at
//! the item's number, from 1 on; that a class has another name than its line says is told at that
//! line.
#![tactic(auto)]
