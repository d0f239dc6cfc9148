//! Lines that name a class, in manifests and in the texts of updates.

ghost use Rattle.std.specs.Prelude.{◌≡◌, ◌∷◌, [], Some, codes, option_map};
ghost use Rattle.manifest_model.specs.Items.{asm_line, class_item_of, class_line};
ghost use Rattle.asm_lines.specs.Words.{texts};
ghost use Rattle.asm_lines.specs.Told.{told};
ghost use Rattle.manifest_reader.specs.Items.{class_line_of as view, class_of};

use crate::item::{ClassItem, ItemForm};
use asm_lines::words::{counted, word_at};
use jv_types::LineKind;

/// What a line that names a class says.
#[derive(Clone, Copy, Debug)]
pub enum ClassLine<'a> {
    /// The class, and the class file that it is in.
    InFile { class: &'a str, file: &'a str },
    /// The class that the lines of a block describe, which `.end` ends.
    InLines { class: &'a str },
}

/// `class C FILE`.
pub fn read_class_line<'a>(words: &[&'a str]) -> Result<ClassLine<'a>, LineKind>
    ensures { told view result ≡ class_line (texts words.now) }
{
    counted(words, 3)?;
    Ok(ClassLine::InFile {
        class: word_at(words, 1),
        file: word_at(words, 2),
    })
}

/// `asm C`.
pub fn read_asm_line<'a>(words: &[&'a str]) -> Result<ClassLine<'a>, LineKind>
    ensures { told view result ≡ asm_line (texts words.now) }
{
    counted(words, 2)?;
    Ok(ClassLine::InLines {
        class: word_at(words, 1),
    })
}

/// The item of a line with this number, and with this text in its block.
pub fn class_item<'a>(line: u32, said: ClassLine<'a>, block: &'a [u8]) -> ClassItem<'a>
    ensures { class_of result ≡ class_item_of line (view said.entry) block.now }
{
    match said {
        ClassLine::InFile { class, file } => ClassItem {
            line,
            class,
            form: ItemForm::InFile(file),
        },
        ClassLine::InLines { class } => ClassItem {
            line,
            class,
            form: ItemForm::InLines(block),
        },
    }
}
