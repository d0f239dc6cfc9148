//! What a heap is to the layers above: objects with serials, which lie at addresses, and a
//! collection that keeps what can be reached.
//!
//! It stands on `jv_types` for lists and numbers of classes, and on `machine_model` for reach
//! order. The contract above it is that of the trait `ObjectHeap`. A heap is seen as a list of
//! objects by serial, with its `half`, its free serial and whether a draft is open
//! (`specs/Heap.antt`). Each read and each write touches one word of one object. `alloc` refuses
//! exactly where the used and the asked words are together above `half`. `collect` leaves exactly
//! the objects that can be reached, in reach order (`specs/Collection.antt`), and may move all of
//! them: what stays is serials, and not addresses. No clause knows how a heap keeps its objects.
#![tactic(auto)]

mod address;
mod heap;
mod layout;
mod shape;

pub use address::{Addr, Roots};
pub use heap::{Full, ObjectHeap};
pub use layout::{Cell, Layouts};
pub use shape::{Kind, Shape};
