//! The entries of its constant pool that a class uses, and as what (JVMS 4.1, 4.5 to 4.7, 6.5).

ghost use Rattle.std.specs.Prelude.{◌≡◌, ◌++◌, ◌∷◌, [], map, IfOk, OnOk, flat_map};
ghost use Rattle.jv_model.specs.ConstantPool.{const_at};
ghost use Rattle.link_model.specs.Uses as model;
ghost use Rattle.link_model.specs.Uses.{instruction_uses, handler_uses, frame_uses, map_type_uses, code_uses, uses_of, descriptor_index};
ghost use Rattle.jv_types.specs.ClassData.{pool_of};
ghost use Rattle.jv_types.specs.Code.{handler_of, map_type_of, body_of};
ghost use Rattle.jv_types.specs.Frames.{row_type};
ghost use Rattle.jv_types.specs.Instruction.{instruction_of};
ghost use Rattle.jv_types.specs.Loaded.{loaded_of, code_of};
ghost use Rattle.class_faults.specs.Uses.{uses_in, use_of, method_uses, HaveOneLeast};

use jv_types::{
    CodeBody, Const, Frames, Handler, Insn, Instruction, List, Loaded, MapType, Member, NoMemory,
    TypeRow,
};
use std::alloc::Global;

/// As what an entry is used.
#[derive(Clone, Copy, Debug, PartialEq, Eq, Hash)]
pub enum Use {
    Superclass,
    Interface,
    FieldDescriptor,
    MethodDescriptor,
    /// A field that is to be static, or that isn't.
    Field { is_static: bool },
    /// A method that is to be static, or that isn't.
    Method { is_static: bool },
    /// The class of a new object.
    New,
    /// A class or array type of `anewarray`, `checkcast`, `instanceof`, a handler or a map frame.
    ReferenceType,
}

/// An entry by its index, and as what it is used.
#[derive(Clone, Copy, Debug, PartialEq, Eq, Hash)]
pub struct Used {
    pub index: u16,
    pub use_as: Use,
}

/// The index of the descriptor in the member reference at an index.
fn descriptor_index(pool: &[Const], index: u16) -> u16
    ensures { result ≡ descriptor_index (pool_of pool.now) (const_at (pool_of pool.now) index) }
{
    match pool.get(usize::from(index)) {
        Some(
            Const::Fieldref(_, pair)
            | Const::Methodref(_, pair)
            | Const::InterfaceMethodref(_, pair),
        ) => match pool.get(usize::from(*pair)) {
            Some(Const::NameAndType(_, descriptor)) => *descriptor,
            _ => 0,
        },
        _ => 0,
    }
}

/// Adds one use.
fn push_use(uses: &mut List<Used>, use_as: Use, index: u16) -> Result<(), NoMemory>
    ensures { OnOk result (uses_in uses.new.items
        ≡ uses_in uses.old.items ++ model.used (use_of use_as) index ∷ []) }
{
    uses.push(Used { index, use_as })?;
    Ok(())
}

/// Adds what a member reference uses.
fn push_member(
    uses: &mut List<Used>,
    pool: &[Const],
    member: Use,
    descriptor: Use,
    index: u16,
) -> Result<(), NoMemory>
    ensures { OnOk result (uses_in uses.new.items ≡ uses_in uses.old.items
        ++ model.used (use_of member) index
        ∷ model.used (use_of descriptor)
        (descriptor_index (pool_of pool.now) (const_at (pool_of pool.now) index)) ∷ []) }
{
    push_use(uses, member, index)?;
    push_use(uses, descriptor, descriptor_index(pool, index))?;
    Ok(())
}

/// Adds what an instruction uses.
#[tactic(auto, unfolding(link_model::specs::Uses::instruction_uses))]
fn push_instruction(
    uses: &mut List<Used>,
    pool: &[Const],
    instruction: &Instruction,
) -> Result<(), NoMemory>
    ensures { OnOk result (uses_in uses.new.items ≡ uses_in uses.old.items
        ++ instruction_uses (pool_of pool.now) (instruction_of instruction.now)) }
{
    match instruction {
        Instruction::Getstatic(index) | Instruction::Putstatic(index) => {
            let member = Use::Field { is_static: true };
            push_member(uses, pool, member, Use::FieldDescriptor, *index)
        }
        Instruction::Getfield(index) | Instruction::Putfield(index) => {
            let member = Use::Field { is_static: false };
            push_member(uses, pool, member, Use::FieldDescriptor, *index)
        }
        Instruction::Invokevirtual(index)
        | Instruction::Invokespecial(index)
        | Instruction::Invokeinterface(index) => {
            let member = Use::Method { is_static: false };
            push_member(uses, pool, member, Use::MethodDescriptor, *index)
        }
        Instruction::Invokestatic(index) => {
            let member = Use::Method { is_static: true };
            push_member(uses, pool, member, Use::MethodDescriptor, *index)
        }
        Instruction::New(index) => push_use(uses, Use::New, *index),
        Instruction::Anewarray(index)
        | Instruction::Checkcast(index)
        | Instruction::Instanceof(index) => push_use(uses, Use::ReferenceType, *index),
        _ => Ok(()),
    }
}

/// Adds what instructions use.
fn push_instructions(
    uses: &mut List<Used>,
    pool: &[Const],
    instructions: &[Insn],
) -> Result<(), NoMemory>
    ensures { OnOk result (uses_in uses.new.items ≡ uses_in uses.old.items
        ++ flat_map (λ insn. instruction_uses (pool_of pool.now)
        (instruction_of insn.instruction)) instructions.now) }
{
    for insn in instructions {
        push_instruction(uses, pool, &insn.instruction)?;
    }
    Ok(())
}

/// Adds the class that a handler catches.
fn push_handler(uses: &mut List<Used>, handler: &Handler) -> Result<(), NoMemory>
    ensures { OnOk result (uses_in uses.new.items
        ≡ uses_in uses.old.items ++ handler_uses (handler_of handler.now)) }
{
    match handler.catch {
        Some(index) => push_use(uses, Use::ReferenceType, index),
        None => Ok(()),
    }
}

/// Adds the classes that handlers catch.
fn push_handlers(uses: &mut List<Used>, handlers: &[Handler]) -> Result<(), NoMemory>
    ensures { OnOk result (uses_in uses.new.items ≡ uses_in uses.old.items
        ++ flat_map (λ row. handler_uses (handler_of row)) handlers.now) }
{
    for handler in handlers {
        push_handler(uses, handler)?;
    }
    Ok(())
}

/// Adds the class that a type of a frame names.
fn push_map_type(uses: &mut List<Used>, map_type: &MapType) -> Result<(), NoMemory>
    ensures { OnOk result (uses_in uses.new.items
        ≡ uses_in uses.old.items ++ map_type_uses (map_type_of map_type.now)) }
{
    match map_type {
        MapType::Object(index) => push_use(uses, Use::ReferenceType, *index),
        MapType::Top
        | MapType::Int
        | MapType::Long
        | MapType::Null
        | MapType::This
        | MapType::Argument(_)
        | MapType::New(_) => Ok(()),
    }
}

/// Adds the classes that the types of frames name, of which those that frames share stand there
/// once.
fn push_types(uses: &mut List<Used>, types: &[TypeRow]) -> Result<(), NoMemory>
    ensures { OnOk result (uses_in uses.new.items ≡ uses_in uses.old.items
        ++ flat_map (λ row. map_type_uses (row_type row)) types.now) }
{
    for row in types {
        push_map_type(uses, &row.map_type)?;
    }
    Ok(())
}

/// Adds the classes that frames name.
fn push_frames(uses: &mut List<Used>, frames: &Frames) -> Result<(), NoMemory>
    ensures { OnOk result (HaveOneLeast (uses_in uses.new.items)
        (uses_in uses.old.items ++ flat_map frame_uses frames.now)) }
{
    push_types(uses, frames.types())?;
    Ok(())
}

/// Adds what the code of a method uses.
fn push_code(uses: &mut List<Used>, pool: &[Const], body: &CodeBody) -> Result<(), NoMemory>
    ensures { OnOk result (HaveOneLeast (uses_in uses.new.items) (uses_in uses.old.items
        ++ code_uses (pool_of pool.now) (body_of body.now))) }
{
    push_instructions(uses, pool, body.instructions.as_slice())?;
    push_handlers(uses, body.handlers.as_slice())?;
    push_frames(uses, &body.frames)?;
    Ok(())
}

/// Adds what the code of a method uses, where it has code.
fn push_method(
    uses: &mut List<Used>,
    pool: &[Const],
    code: &Option<CodeBody>,
) -> Result<(), NoMemory>
    ensures { OnOk result (HaveOneLeast (uses_in uses.new.items)
        (uses_in uses.old.items ++ method_uses (pool_of pool.now) (code_of code.now))) }
{
    match code {
        Some(body) => push_code(uses, pool, body),
        None => Ok(()),
    }
}

/// Adds what the code of methods uses.
fn push_codes(
    uses: &mut List<Used>,
    pool: &[Const],
    codes: &[Option<CodeBody>],
) -> Result<(), NoMemory>
    ensures { OnOk result (HaveOneLeast (uses_in uses.new.items) (uses_in uses.old.items
        ++ flat_map (λ code. method_uses (pool_of pool.now) (code_of code)) codes.now)) }
{
    for code in codes {
        push_method(uses, pool, code)?;
    }
    Ok(())
}

/// Adds the descriptors of members.
fn push_descriptors(uses: &mut List<Used>, use_as: Use, members: &[Member]) -> Result<(), NoMemory>
    ensures { OnOk result (uses_in uses.new.items ≡ uses_in uses.old.items
        ++ map (λ member. model.used (use_of use_as) member.descriptor) members.now) }
{
    for member in members {
        push_use(uses, use_as, member.descriptor)?;
    }
    Ok(())
}

/// Adds the interfaces that a class names.
fn push_interfaces(uses: &mut List<Used>, interfaces: &[u16]) -> Result<(), NoMemory>
    ensures { OnOk result (uses_in uses.new.items ≡ uses_in uses.old.items
        ++ map (model.used model.as_interface) interfaces.now) }
{
    for interface in interfaces {
        push_use(uses, Use::Interface, *interface)?;
    }
    Ok(())
}

/// What a class uses. What frames share stands there once, so that the list is no longer than the
/// file is: the least of the definitions' uses is that of these, whichever are looked at. It fails
/// only for want of memory.
pub fn list_uses(alloc: Global, class: &Loaded) -> Result<List<Used>, NoMemory>
    ensures { IfOk result (λ uses.
        HaveOneLeast (uses_in uses.items) (uses_of (loaded_of class.now))) }
{
    let file = &class.file;
    let mut uses = List::new(alloc);
    push_use(&mut uses, Use::Superclass, file.super_class)?;
    push_interfaces(&mut uses, file.interfaces.as_slice())?;
    push_descriptors(&mut uses, Use::FieldDescriptor, file.fields.as_slice())?;
    push_descriptors(&mut uses, Use::MethodDescriptor, file.methods.as_slice())?;
    push_codes(&mut uses, file.pool.as_slice(), class.codes.as_slice())?;
    Ok(uses)
}
