//! Marks by method.

ghost use Rattle.std.specs.Prelude.{◌≡◌, ◌+◌, [], IfOk, IsSome, OnErr, OnOk, Some};
ghost use Rattle.code_marks.specs.Marks.{AddsMarks, AreMarks, AreWorldMarks, ShowCodes, code_count, count_of, mark_at, mark_if, methods_in};

use crate::class_codes::{has_code, method_count};
use class_world::{Origin, World};
use code_store::CodeMark;
use jv_types::{ClassNo, List, MethodNo, NoMemory};
use std::alloc::Global;
use std::marker::Model;

/// The mark that shows the code of that number, where a method has code.
fn mark_of(body: u32, version: u32, has_code: bool) -> Option<CodeMark>
    ensures { result ≡ mark_if has_code body version }
{
    if has_code {
        Some(CodeMark { body, version })
    } else {
        None
    }
}

/// The number of the next code. It fails only for want of numbers of 32 bits.
fn next_body(body: u32, has_code: bool) -> Result<u32, NoMemory>
    ensures { IfOk result (λ next. next ≡ body + count_of has_code) }
{
    if !has_code {
        return Ok(body);
    }
    body.checked_add(1).ok_or(NoMemory)
}

/// The marks of the methods of a class, and the number of the next code after theirs.
#[derive(Drop)]
struct ClassMarks {
    row: List<Option<CodeMark>>,
    next: u32,
}

/// The marks of the methods of a class whose first code has that number.
fn marks_of(alloc: Global, origin: &Origin, base: u32, version: u32) -> Result<ClassMarks, NoMemory>
    ensures row { IfOk result (λ marks.
        AreMarks (methods_in origin.now) base version marks.row.items) }
    ensures next { IfOk result (λ marks. marks.next ≡ base + code_count (methods_in origin.now)) }
{
    let mut row = List::new(alloc);
    let mut body = base;
    for index in 0..method_count(origin) {
        let is_coded = has_code(origin, index);
        row.push(mark_of(body, version, is_coded))?;
        body = next_body(body, is_coded)?;
    }
    Ok(ClassMarks { row, next: body })
}

/// The marks of the code of classes. Contracts see for each class, by number, those of its methods,
/// by index; a method without code has none.
#[derive(Drop)]
pub struct CodeMarks {
    rows: List<List<Option<CodeMark>>>,
}

impl Model for CodeMarks {
    ghost use Rattle.std.specs.Prelude.{map};
    ghost use Rattle.code_marks.specs.Marks.{Rows};

    ghost Value = { Rows };

    ghost view = { λ it. map (λ row. row.items) it.rows.items };
}

impl CodeMarks {
    /// No classes.
    pub fn new(alloc: Global) -> CodeMarks
        ensures { result ≡ [] }
    {
        CodeMarks {
            rows: List::new(alloc),
        }
    }

    /// The marks of the classes of a world, of version 0. The number of a code is its place among
    /// those of all classes, in their order. It fails only for want of memory, or of numbers of 32
    /// bits.
    pub fn open(alloc: Global, world: &World) -> Result<CodeMarks, NoMemory>
        ensures each { IfOk result (λ marks. AreWorldMarks world.now marks) }
        ensures shown { IfOk result (λ marks. ShowCodes world.now marks) }
    {
        let mut marks = CodeMarks::new(alloc);
        let mut base = 0;
        for class in 0..world.classes() {
            base = marks.push(alloc, &world.class(ClassNo(class)).origin, base, 0)?;
        }
        Ok(marks)
    }

    /// Adds a class, which is the next one, with marks of that version, and gives the number of the
    /// next code after those of the class, whose first has the number `base`. It fails only for
    /// want of memory, or of numbers of 32 bits, and then nothing changes.
    pub fn push(
        &mut self,
        alloc: Global,
        origin: &Origin,
        base: u32,
        version: u32,
    ) -> Result<u32, NoMemory>
        ensures ok { OnOk result (AddsMarks (methods_in origin.now) base version
            self.old self.new) }
        ensures next { IfOk result (λ next. next ≡ base + code_count (methods_in origin.now)) }
        ensures err { OnErr result (self.new ≡ self.old) }
    {
        let marks = marks_of(alloc, origin, base, version)?;
        self.rows.push(marks.row)?;
        Ok(marks.next)
    }

    /// The mark of a method that has code.
    pub fn get(&self, method: MethodNo) -> CodeMark
        requires { IsSome (mark_at self.now method) }
        ensures { mark_at self.now method ≡ Some result }
    {
        match self.rows.get(method.class.0).get(method.index) {
            Some(mark) => *mark,
            None => unreachable!(),
        }
    }
}
