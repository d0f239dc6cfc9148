//! The code of main, where the classes of a program are one that is run.

ghost use Rattle.std.specs.Prelude.{◌≡◌, IfOk, IfSome, None, codes, map, option_map, option_and_then, slice_get, take};
ghost use Rattle.std.specs.List.{list_all, list_any};
ghost use Rattle.jv_model.specs.ConstantPool.{is_named};
ghost use Rattle.jv_model.specs.Profile.{constant_value};
ghost use Rattle.code_model.specs.Names.{named, named_placed};
ghost use Rattle.world_model.specs.World.{has_flag, acc_static};
ghost use Rattle.link_model.specs.WorldOf.{field_of, method_of, class_of};
ghost use Rattle.straight_line_model.specs.StraightLine.{IsStraightLine, is_return};
ghost use Rattle.run_model.specs.MainCode.{instructions_of, up_to_return, straight_body};
ghost use Rattle.run_model.specs.Later.{begins_as_string, is_main, is_main_or_constructor, has_main_alone, code_of_main, main_code, main_body as model_main_body};
ghost use Rattle.jv_types.specs.ClassData.{member_of, pool_of};
ghost use Rattle.jv_types.specs.Code.{body_of as code_of};
ghost use Rattle.jv_types.specs.Instructions.{placed_of};
ghost use Rattle.jv_types.specs.Loaded.{loaded_of};
ghost use Rattle.straight_line.specs.Body.{body_of, instruction_of};
ghost use Rattle.straight_line.specs.Programs.{body_found, instructions_found, AreVerified};

use crate::body::{Body, Instruction};
use crate::instruction::instruction_of;
use class_pool::is_named;
use jv_types::{Attr, CodeBody, Const, Insn, List, Loaded, Member, NoMemory, is_text, text_at};
use std::alloc::Global;

/// ACC_STATIC (JVMS table 4.5-A).
const ACC_STATIC: u16 = 0x0008;

/// Instructions as they are run, where all of them are.
fn instructions_of(
    alloc: Global,
    pool: &List<Const>,
    insns: &[Insn],
) -> Result<Option<List<Instruction>>, NoMemory>
    ensures { IfOk result (λ found. instructions_found found ≡ instructions_of
        (map (named_placed (pool_of pool.now.items)) (map placed_of insns.now))) }
{
    let mut instructions = List::new(alloc);
    for insn in insns {
        let Some(instruction) = instruction_of(pool, &insn.instruction) else {
            return Ok(None);
        };
        instructions.push(instruction)?;
    }
    Ok(Some(instructions))
}

/// Whether an instruction ends the method.
fn is_return(instruction: Instruction) -> bool
    ensures { result ≡ is_return (instruction_of instruction) }
{
    matches!(instruction, Instruction::Return)
}

/// The number of instructions up to the first `return`, which ends the run: no instruction behind it
/// is reached.
fn count_reached(instructions: &List<Instruction>) -> Option<u32>
    ensures { option_map (λ count. take count (map instruction_of instructions.now.items)) result
        ≡ up_to_return (map instruction_of instructions.now.items) }
{
    for index in 0..instructions.len() {
        if is_return(*instructions.get(index)) {
            return Some(index + 1);
        }
    }
    None
}

/// The code of a method, where it is run.
#[tactic(auto, unfolding(code_model::specs::Names::named))]
fn straight_body(
    alloc: Global,
    pool: &List<Const>,
    body: &CodeBody,
) -> Result<Option<Body>, NoMemory>
    ensures { (descriptor : _) → IfOk result (λ found. body_found found
        ≡ straight_body (named (pool_of pool.now.items) descriptor (code_of body.now))) }
{
    let Some(mut instructions) = instructions_of(alloc, pool, body.instructions.as_slice())? else {
        return Ok(None);
    };
    let Some(count) = count_reached(&instructions) else {
        return Ok(None);
    };
    instructions.cut(count);
    Ok(Some(Body {
        max_stack: body.max_stack,
        max_locals: body.max_locals,
        instructions,
    }))
}

/// Whether one of some attributes is a ConstantValue (JVMS 4.7.2).
fn has_constant(pool: &List<Const>, attributes: &[Attr]) -> bool
    ensures { result ≡ list_any (λ attribute. is_named (pool_of pool.now.items) constant_value
        attribute.name) attributes.now }
{
    attributes.iter().any(|attribute| is_named(pool, b"ConstantValue", attribute.name))
}

fn is_static(field: &Member) -> bool
    ensures { result ≡ has_flag acc_static field.now.flags }
{
    field.flags & ACC_STATIC != 0
}

/// Whether a field is a static one that has a String from its ConstantValue.
fn begins_as_string(pool: &List<Const>, field: &Member) -> bool
    ensures { result ≡ begins_as_string (field_of (pool_of pool.now.items) (member_of field.now)) }
{
    if !is_static(field) {
        return false;
    }
    is_text(
        text_at(pool.as_slice(), field.descriptor),
        b"Ljava/lang/String;",
    ) && has_constant(pool, field.attributes.as_slice())
}

/// Whether a method has the name and the descriptor of main.
fn is_main(pool: &List<Const>, method: &Member) -> bool
    ensures { result ≡ is_main (method_of (pool_of pool.now.items) (member_of method.now) None) }
{
    is_text(text_at(pool.as_slice(), method.name), b"main")
        && is_text(
            text_at(pool.as_slice(), method.descriptor),
            b"([Ljava/lang/String;)V",
        )
}

/// Whether it is main or a constructor.
fn is_main_or_constructor(pool: &List<Const>, method: &Member) -> bool
    ensures { result ≡ is_main_or_constructor
        (method_of (pool_of pool.now.items) (member_of method.now) None) }
{
    is_main(pool, method) || is_text(text_at(pool.as_slice(), method.name), b"<init>")
}

/// Whether all of some methods are.
fn are_main_or_constructors(pool: &List<Const>, methods: &[Member]) -> bool
    ensures { result ≡ list_all (λ method. is_main_or_constructor
        (method_of (pool_of pool.now.items) (member_of method) None)) methods.now }
{
    methods
        .iter()
        .all(|method| is_main_or_constructor(pool, method))
}

/// Whether one of some fields is a static one that begins as a String.
fn one_begins_as_string(pool: &List<Const>, fields: &[Member]) -> bool
    ensures { result ≡ list_any (λ field. begins_as_string
        (field_of (pool_of pool.now.items) (member_of field))) fields.now }
{
    fields.iter().any(|field| begins_as_string(pool, field))
}

/// Whether a class has no methods beside main and constructors, and no static field that begins as
/// a String.
fn has_main_alone(class: &Loaded) -> bool
    ensures { result ≡ has_main_alone (class_of (loaded_of class.now)) }
{
    let file = &class.file;
    are_main_or_constructors(&file.pool, file.methods.as_slice())
        && !one_begins_as_string(&file.pool, file.fields.as_slice())
}

/// The code of a class's method, by its index, where it has code.
fn code_at(class: &Loaded, method: u32) -> Option<&CodeBody>
    ensures { option_map (λ body. code_of body.now) result
        ≡ option_and_then (λ code. code) (slice_get (loaded_of class.now).codes method) }
{
    match class.codes.as_slice().get(method as usize) {
        Some(Some(body)) => Some(body),
        _ => None,
    }
}

/// The code of a class's main, where it has code.
fn code_of_main(class: &Loaded) -> Option<&CodeBody>
    ensures { option_map (named (pool_of class.now.file.pool.items)
        (codes "([Ljava/lang/String;)V")) (option_map (λ body. code_of body.now) result)
        ≡ code_of_main (class_of (loaded_of class.now)) }
{
    let methods = &class.file.methods;
    for index in 0..methods.len() {
        if is_main(&class.file.pool, methods.get(index)) {
            return code_at(class, index);
        }
    }
    None
}

/// The code of a class's main, where it is run.
fn main_code(alloc: Global, class: &Loaded) -> Result<Option<Body>, NoMemory>
    ensures { IfOk result (λ found. body_found found ≡ main_code (class_of (loaded_of class.now))) }
{
    match code_of_main(class) {
        Some(body) => straight_body(alloc, &class.file.pool, body),
        None => Ok(None),
    }
}

/// The code of main, where these are all classes of a program that is run. They are those of a
/// world of which each method is well typed; so the code finds its operands (JVMS 4.10.1).
pub fn main_body(alloc: Global, classes: &[Loaded]) -> Result<Option<Body>, NoMemory>
    requires { AreVerified (map class_of (map loaded_of classes.now)) }
    ensures body { IfOk result (λ found. body_found found
        ≡ model_main_body (map class_of (map loaded_of classes.now))) }
    ensures straight { IfOk result (λ found. IfSome found (λ body. IsStraightLine (body_of body))) }
{
    if classes.len() != 1 || !has_main_alone(&classes[0]) {
        return Ok(None);
    }
    main_code(alloc, &classes[0])
}
