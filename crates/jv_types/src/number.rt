//! The numbers by which a run names what it has. Each counts from 0.

/// The number of a thread, in the order in which threads start.
#[derive(Clone, Copy, Debug, PartialEq, Eq)]
pub struct ThreadNo(pub u32);

/// The number of a class of a program.
#[derive(Clone, Copy, Debug, PartialEq, Eq)]
pub struct ClassNo(pub u32);

/// A method, by the number of its class and its index among the class's methods.
#[derive(Clone, Copy, Debug, PartialEq, Eq)]
pub struct MethodNo {
    pub class: ClassNo,
    pub index: u32,
}

/// The place of an instruction in the code of its method, in bytes.
#[derive(Clone, Copy, Debug, PartialEq, Eq)]
pub struct Pc(pub u32);
