//! The class that an item brings.

ghost use Rattle.std.specs.Prelude.{◌≡◌, ◌≤◌, ◌+◌, length, IfOk};
ghost use Rattle.jv_model.specs.ClassReading.{class_of};
ghost use Rattle.jv_model.specs.Limits.{most_file_bytes, most_all_files_bytes};
ghost use Rattle.jv_model.specs.Profile.{IsInProfile};
ghost use Rattle.manifest_model.specs.Items.{in_file};
ghost use Rattle.assembler_model.specs.AssembledClass.{assembled};
ghost use Rattle.manifest_laws.specs.Laws.{FormIsWithin};
ghost use Rattle.linked_laws.specs.Worlds.{IsReadClass};
ghost use Rattle.load_model.specs.Loading.{placed, answers};
ghost use Rattle.load_model.specs.LoadClasses.{total_within, or_line, class_in_bytes, class_in_lines, class_data, where_named, class_of_item, load_class};
ghost use Rattle.jv_types.specs.ClassData.{class_data_of};
ghost use Rattle.jv_types.specs.Loaded.{loaded_of};
ghost use Rattle.manifest_reader.specs.Items.{form_of, class_of as item_of};
ghost use Rattle.class_loader.specs.Outside.{read};
ghost use Rattle.class_loader.specs.Loads.{IsLoaded};
ghost use Rattle.class_loader.specs.Placed.{IsPlaced};
ghost use Rattle.class_loader.specs.Classes.{class_read, class_loaded, codes_in};

use crate::cause::{asm_cause, class_cause, code_cause};
use crate::file::read_file;
use crate::name::class_name;
use crate::stop::{Stop, stop_at};
use class_asm::assemble;
use class_reader::read_class;
use code_reader::load_class;
use jv_outer::Files;
use jv_types::text::units;
use jv_types::{Cause, ClassData, LineKind, Loaded, What};
use manifest_reader::{ClassItem, ItemForm};
use std::alloc::Global;

/// The most bytes that the class files of a program have together.
const MOST_ALL_FILES_BYTES: u64 = 16_777_216;

/// What was read of a class, and the bytes of all class files up to there.
#[derive(Drop)]
pub(crate) struct ReadClass {
    pub(crate) file: ClassData,
    pub(crate) bytes: u64,
}

/// A class with its code, and the bytes of all class files up to there.
#[derive(Drop)]
pub(crate) struct LoadedClass {
    pub(crate) class: Loaded,
    pub(crate) bytes: u64,
}

/// The bytes of all class files, with so many more, where there may be so many.
fn add_bytes(number: u32, before: u64, count: u64) -> Result<u64, Stop>
    requires before { before ≤ most_all_files_bytes }
    requires count { count ≤ most_file_bytes }
    ensures total { IsPlaced (λ total. total) result (placed number 0 (total_within (before + count))) }
    ensures within { IfOk result (λ total. total ≤ most_all_files_bytes) }
{
    let total = before + count;
    if total > MOST_ALL_FILES_BYTES {
        let what = What::Total;
        return Err(Stop::Refused {
            item: number,
            sub: 0,
            cause: Cause::Limit { what, n: total },
        });
    }
    Ok(total)
}

/// What the bytes of a class file say.
fn read_bytes(alloc: Global, number: u32, bytes: &[u8]) -> Result<ClassData, Stop>
    ensures class { IsPlaced class_data_of result (placed number 0 (class_of bytes.now)) }
    ensures profile { IfOk result (λ file. IsInProfile (class_data_of file)) }
{
    match read_class(alloc, bytes) {
        Ok(file) => Ok(file),
        Err(error) => Err(stop_at(number, class_cause(error))),
    }
}

/// What the lines of an assembler text say: of an item's block, or of a text of its own, whose
/// number is 0.
pub fn read_lines(alloc: Global, number: u32, text: &[u8]) -> Result<ClassData, Stop>
    ensures class { IsPlaced class_data_of result (placed number 0 (or_line (assembled text.now))) }
    ensures profile { length text.now ≤ most_file_bytes
        → IfOk result (λ file. IsInProfile (class_data_of file)) }
{
    match assemble(alloc, text) {
        Ok(file) => Ok(file),
        Err(error) => Err(stop_at(number, asm_cause(error))),
    }
}

/// What the bytes of an item's class file say, behind class files of so many bytes.
fn class_in_bytes(alloc: Global, number: u32, before: u64, bytes: &[u8]) -> Result<ReadClass, Stop>
    requires before { before ≤ most_all_files_bytes }
    requires count { length bytes.now ≤ most_file_bytes }
    ensures read { IsPlaced class_read result (class_in_bytes number before bytes.now) }
    ensures profile { IfOk result (λ read. IsInProfile (class_data_of read.file)) }
    ensures within { IfOk result (λ read. read.bytes ≤ most_all_files_bytes) }
{
    let total = add_bytes(number, before, bytes.len() as u64)?;
    let file = read_bytes(alloc, number, bytes)?;
    Ok(ReadClass { file, bytes: total })
}

/// What the lines of an item's block say. They count as no class file.
fn class_in_lines(alloc: Global, number: u32, before: u64, text: &[u8]) -> Result<ReadClass, Stop>
    requires before { before ≤ most_all_files_bytes }
    ensures read { IsPlaced class_read result (class_in_lines number before text.now) }
    ensures profile { length text.now ≤ most_file_bytes
        → IfOk result (λ read. IsInProfile (class_data_of read.file)) }
    ensures within { IfOk result (λ read. read.bytes ≤ most_all_files_bytes) }
{
    let file = read_lines(alloc, number, text)?;
    Ok(ReadClass {
        file,
        bytes: before,
    })
}

/// What the class file of this name says.
fn class_in_file<F: Files>(
    alloc: Global,
    files: &mut F,
    number: u32,
    before: u64,
    name: &str,
) -> Result<ReadClass, Stop>
    requires { before ≤ most_all_files_bytes }
    ensures loaded { IsLoaded class_read result (read F.folder F.asked F.faults files.old files.new)
        (λ folder. class_data folder number before (in_file name.now)) }
    ensures profile { IfOk result (λ read. IsInProfile (class_data_of read.file)) }
    ensures folder { F.folder files.new ≡ F.folder files.old }
    ensures within { IfOk result (λ read. read.bytes ≤ most_all_files_bytes) }
{
    let bytes = read_file(alloc, files, name, number, 0)?;
    class_in_bytes(alloc, number, before, bytes.as_slice())
}

/// What an item's class file or block says.
fn class_data<F: Files>(
    alloc: Global,
    files: &mut F,
    number: u32,
    before: u64,
    form: ItemForm<'_>,
) -> Result<ReadClass, Stop>
    requires { before ≤ most_all_files_bytes }
    ensures loaded { IsLoaded class_read result (read F.folder F.asked F.faults files.old files.new)
        (λ folder. class_data folder number before (form_of form.entry)) }
    ensures profile { FormIsWithin most_file_bytes (form_of form.entry)
        → IfOk result (λ read. IsInProfile (class_data_of read.file)) }
    ensures folder { F.folder files.new ≡ F.folder files.old }
    ensures within { IfOk result (λ read. read.bytes ≤ most_all_files_bytes) }
{
    match form {
        ItemForm::InFile(name) => class_in_file(alloc, files, number, before, name),
        ItemForm::InLines(text) => class_in_lines(alloc, number, before, text),
    }
}

/// A class that was read, under the name that its item's line says.
fn where_named(alloc: Global, asked: &ClassItem<'_>, class: Loaded) -> Result<Loaded, Stop>
    ensures class { IsPlaced loaded_of result
        (answers (where_named (item_of asked.now) (loaded_of class))) }
    ensures same { IfOk result (λ found. found ≡ class) }
{
    let wanted = units(alloc, asked.class)?;
    if class_name(&class.file) == wanted.as_slice() {
        return Ok(class);
    }
    Err(Stop::Refused {
        item: 0,
        sub: 0,
        cause: Cause::ManifestLine {
            line: asked.line,
            kind: LineKind::Name,
        },
    })
}

/// The code of what was read.
fn load_codes(alloc: Global, number: u32, file: ClassData) -> Result<Loaded, Stop>
    ensures class { IsPlaced loaded_of result (codes_in number (class_data_of file)) }
    ensures read { IsInProfile (class_data_of file)
        → IfOk result (λ class. IsReadClass (loaded_of class)) }
{
    match load_class(alloc, file) {
        Ok(class) => Ok(class),
        Err((method, error)) => Err(stop_at(number, code_cause(method, error))),
    }
}

/// What was read, with its code, under the name that its item's line says.
fn class_of_item(
    alloc: Global,
    number: u32,
    asked: &ClassItem<'_>,
    read: ReadClass,
) -> Result<LoadedClass, Stop>
    requires { read.bytes ≤ most_all_files_bytes }
    ensures class { IsPlaced class_loaded result
        (class_of_item number (item_of asked.now) (class_read read)) }
    ensures read { IsInProfile (class_data_of read.file)
        → IfOk result (λ loaded. IsReadClass (loaded_of loaded.class)) }
    ensures within { IfOk result (λ loaded. loaded.bytes ≤ most_all_files_bytes) }
{
    let ReadClass { file, bytes } = read;
    let loaded = load_codes(alloc, number, file)?;
    let class = where_named(alloc, asked, loaded)?;
    Ok(LoadedClass { class, bytes })
}

/// The class of the item with that number, behind class files of so many bytes.
pub(crate) fn load_item<F: Files>(
    alloc: Global,
    files: &mut F,
    number: u32,
    before: u64,
    asked: &ClassItem<'_>,
) -> Result<LoadedClass, Stop>
    requires { before ≤ most_all_files_bytes }
    ensures loaded { IsLoaded class_loaded result (read F.folder F.asked F.faults files.old files.new)
        (λ folder. load_class folder number before (item_of asked.now)) }
    ensures read { FormIsWithin most_file_bytes (item_of asked.now).form
        → IfOk result (λ loaded. IsReadClass (loaded_of loaded.class)) }
    ensures folder { F.folder files.new ≡ F.folder files.old }
    ensures within { IfOk result (λ loaded. loaded.bytes ≤ most_all_files_bytes) }
{
    let read = class_data(alloc, files, number, before, asked.form)?;
    class_of_item(alloc, number, asked, read)
}
