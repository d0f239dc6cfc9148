//! Assembler texts, as definitions: which class a text describes, or the first of its lines that is
//! outside the grammar, and what is wrong with it. It has no function.
//!
//! Read `AssemblerTerms` first (what lines say), then `AssembledClass`, which is the whole: a text is
//! cut into lines, its methods into blocks (`Blocks`, `AssemblerOrder`), and each line is read by
//! itself (`AssemblerLines`, `OperationLines`, over the table `Mnemonics`). What the lines need makes
//! the constant pool (`PoolNeeds`, `AssemblerPool`), and that tells the bytes of instructions
//! (`InstructionBytes`), and so where labels stand (`CodeLines`, `CodeFaults`, `CodeBytes`).
//!
//! A fault of a line comes of its own form or of its context: the order of lines, labels, distances,
//! indices. All faults of a text make one list, and the one that is told is that of the least line,
//! and there of the least rank, wherever in the list it stands.
#![tactic(auto)]
