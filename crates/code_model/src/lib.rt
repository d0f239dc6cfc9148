//! What the bytes of a method's code mean, with which refusal code is rejected, and code in which
//! names stand in the place of indices of the constant pool. It has no function.
//!
//! A way through it: `Opcodes` (the table of the opcodes, each with its mnemonic and its format),
//! `Formats` and `Entries` (what stands behind an opcode, and what it may name in the pool); then
//! `SpellsCode` with `SpellsInstructions`, `SpellsOperands` and `SpellsFrames` (which bytes are those
//! of which code); then `CodeReading`, from the bytes' front, with the first refusal, over
//! `CodeShape`, `InstructionReading`, `CodePlaces` and `StackMaps`; then `Laws`, how the one belongs
//! to the other. `TypeReading` (descriptors) and `Names` serve linking, verifying and running too.
//!
//! The two share the table, what an entry of the pool is, and the tests on places, and no reader.
#![tactic(auto)]
