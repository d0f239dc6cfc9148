//! What stands for the code of a method.

ghost use Rattle.std.specs.Prelude.{◌≡◌, ◌↔◌, IsTrue};

/// The code of a method at a time of a program.
#[derive(Clone, Copy, Debug, PartialEq, Eq)]
pub struct CodeMark {
    /// The number of the code in the program's table.
    pub body: u32,
    /// It rises where a method's code is marked anew.
    pub version: u32,
}

impl CodeMark {
    /// Whether both numbers are equal.
    pub fn same(&self, other: &CodeMark) -> bool
        ensures { IsTrue result ↔ (self.now ≡ other.now) }
    {
        self == other
    }
}
