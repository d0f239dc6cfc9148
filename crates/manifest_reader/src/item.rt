//! What manifests and the texts of updates name. Names and texts are lent from the text.

/// Where an item's contents are.
#[derive(Clone, Copy, Debug, PartialEq, Eq)]
pub enum ItemForm<'a> {
    /// In the file of this name.
    InFile(&'a str),
    /// In the lines of a block, as a text of their own.
    InLines(&'a [u8]),
}

/// A class that an item brings.
#[derive(Clone, Copy, Debug, PartialEq, Eq)]
pub struct ClassItem<'a> {
    /// The number of its line, from 1.
    pub line: u32,
    /// The class that is to be in it.
    pub class: &'a str,
    pub form: ItemForm<'a>,
}

/// When an update is ready.
#[derive(Clone, Copy, Debug, PartialEq, Eq)]
pub enum When {
    /// Once so many steps were made.
    AtStep(u32),
    /// Once an update was requested as often as there are such updates up to it.
    OnCall,
}

/// An update that an item brings.
#[derive(Clone, Copy, Debug, PartialEq, Eq)]
pub struct UpdateItem<'a> {
    /// The number of its line, from 1.
    pub line: u32,
    pub when: When,
    pub form: ItemForm<'a>,
}

/// What an item of a manifest brings.
#[derive(Clone, Copy, Debug, PartialEq, Eq)]
pub enum ManifestItem<'a> {
    Class(ClassItem<'a>),
    Update(UpdateItem<'a>),
}
