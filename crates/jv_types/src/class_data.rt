//! What a class file says (JVMS 4.1).

ghost use Rattle.std.specs.Prelude.{◌≡◌, IfOk};
ghost use Rattle.jv_model.specs.ConstantPool.{units_at};
ghost use Rattle.jv_types.specs.ClassData.{pool_of};

use crate::duplicate::{Duplicate, copy_list};
use crate::list::List;
use crate::memory::NoMemory;
use crate::tag;
use crate::text::{Bytes, Text};
use std::alloc::Global;

/// An entry of the constant pool (JVMS 4.4). Numbers are indices of other entries, in the order in
/// which the file has them, but for values and what is told otherwise.
#[derive(Debug, Drop)]
pub enum Const {
    /// What stands at index 0, and at the second index of a Long and of a Double.
    Gap,
    /// A text (JVMS 4.4.7).
    Utf8(Text),
    Integer(i32),
    /// The bits of a float.
    Float(u32),
    Long(i64),
    /// The bits of a double.
    Double(u64),
    Class(u16),
    String(u16),
    Fieldref(u16, u16),
    Methodref(u16, u16),
    InterfaceMethodref(u16, u16),
    NameAndType(u16, u16),
    /// The kind of the handle, and the index of the member that it is of.
    MethodHandle(u8, u16),
    MethodType(u16),
    /// The number of a bootstrap method, and the index of a NameAndType.
    InvokeDynamic(u16, u16),
}

/// The text at an index of a constant pool, or none where no Utf8 entry is there.
pub fn text_at(pool: &[Const], index: u16) -> &[u16]
    ensures { result.now ≡ units_at (pool_of pool.now) index }
{
    match pool.get(usize::from(index)) {
        Some(Const::Utf8(text)) => text.as_slice(),
        _ => &[],
    }
}

/// An attribute (JVMS 4.7).
#[derive(Debug, Drop)]
pub struct Attr {
    /// The index of its name.
    pub name: u16,
    /// Its contents, as they lie in the file.
    pub bytes: Bytes,
}

/// A field (JVMS 4.5) or a method (JVMS 4.6).
#[derive(Debug, Drop)]
pub struct Member {
    pub flags: u16,
    /// The index of its name.
    pub name: u16,
    /// The index of its descriptor.
    pub descriptor: u16,
    pub attributes: List<Attr>,
}

/// What a class file says (JVMS 4.1).
#[derive(Debug, Drop)]
pub struct ClassData {
    pub minor: u16,
    pub major: u16,
    /// The constant pool by index, so that it begins with a gap.
    pub pool: List<Const>,
    pub flags: u16,
    /// The index of the class.
    pub this_class: u16,
    /// The index of its superclass.
    pub super_class: u16,
    /// The indices of its interfaces.
    pub interfaces: List<u16>,
    pub fields: List<Member>,
    pub methods: List<Member>,
    pub attributes: List<Attr>,
}

impl Const {
    ghost use Rattle.std.specs.Prelude.{◌≡◌};
    ghost use Rattle.jv_model.specs.ConstantPool.{tag_of};
    ghost use Rattle.jv_types.specs.ClassData.{const_of};

    /// The entry's tag (JVMS table 4.4-A). A gap has none, and 0 is no entry's.
    pub fn tag(&self) -> u8
        ensures { result ≡ tag_of (const_of self.now) }
    {
        match self {
            Const::Gap => 0,
            Const::Utf8(_) => tag::UTF8,
            Const::Integer(_) => tag::INTEGER,
            Const::Float(_) => tag::FLOAT,
            Const::Long(_) => tag::LONG,
            Const::Double(_) => tag::DOUBLE,
            Const::Class(_) => tag::CLASS,
            Const::String(_) => tag::STRING,
            Const::Fieldref(..) => tag::FIELDREF,
            Const::Methodref(..) => tag::METHODREF,
            Const::InterfaceMethodref(..) => tag::INTERFACE_METHODREF,
            Const::NameAndType(..) => tag::NAME_AND_TYPE,
            Const::MethodHandle(..) => tag::METHOD_HANDLE,
            Const::MethodType(_) => tag::METHOD_TYPE,
            Const::InvokeDynamic(..) => tag::INVOKE_DYNAMIC,
        }
    }
}

impl Duplicate for Const {
    ghost use Rattle.jv_model.specs.ClassData.{Const as ModelConst};
    ghost use Rattle.jv_types.specs.ClassData.{const_of};

    ghost Meaning = { ModelConst };

    ghost meaning = { const_of };

    fn copy(&self, alloc: Global) -> Result<Const, NoMemory> {
        match self {
            Const::Gap => Ok(Const::Gap),
            Const::Utf8(text) => Ok(Const::Utf8(text.copy(alloc)?)),
            Const::Integer(value) => Ok(Const::Integer(*value)),
            Const::Float(bits) => Ok(Const::Float(*bits)),
            Const::Long(value) => Ok(Const::Long(*value)),
            Const::Double(bits) => Ok(Const::Double(*bits)),
            Const::Class(name) => Ok(Const::Class(*name)),
            Const::String(text) => Ok(Const::String(*text)),
            Const::Fieldref(owner, pair) => Ok(Const::Fieldref(*owner, *pair)),
            Const::Methodref(owner, pair) => Ok(Const::Methodref(*owner, *pair)),
            Const::InterfaceMethodref(owner, pair) => {
                Ok(Const::InterfaceMethodref(*owner, *pair))
            }
            Const::NameAndType(name, descriptor) => Ok(Const::NameAndType(*name, *descriptor)),
            Const::MethodHandle(kind, member) => Ok(Const::MethodHandle(*kind, *member)),
            Const::MethodType(descriptor) => Ok(Const::MethodType(*descriptor)),
            Const::InvokeDynamic(method, pair) => Ok(Const::InvokeDynamic(*method, *pair)),
        }
    }
}

impl Duplicate for Attr {
    ghost use Rattle.jv_model.specs.ClassData.{Attr as ModelAttr};
    ghost use Rattle.jv_types.specs.ClassData.{attr_of};

    ghost Meaning = { ModelAttr };

    ghost meaning = { attr_of };

    fn copy(&self, alloc: Global) -> Result<Attr, NoMemory> {
        Ok(Attr {
            name: self.name,
            bytes: self.bytes.copy(alloc)?,
        })
    }
}

impl Duplicate for Member {
    ghost use Rattle.jv_model.specs.ClassData.{Member as ModelMember};
    ghost use Rattle.jv_types.specs.ClassData.{member_of};

    ghost Meaning = { ModelMember };

    ghost meaning = { member_of };

    fn copy(&self, alloc: Global) -> Result<Member, NoMemory> {
        Ok(Member {
            flags: self.flags,
            name: self.name,
            descriptor: self.descriptor,
            attributes: copy_list(alloc, &self.attributes)?,
        })
    }
}

impl ClassData {
    ghost use Rattle.jv_types.specs.ClassData.{class_data_of};

    /// Equal class data, unless there is no memory for them.
    pub fn copy(&self, alloc: Global) -> Result<ClassData, NoMemory>
        ensures { IfOk result (λ copy. class_data_of copy ≡ class_data_of self.now) }
    {
        Ok(ClassData {
            minor: self.minor,
            major: self.major,
            pool: copy_list(alloc, &self.pool)?,
            flags: self.flags,
            this_class: self.this_class,
            super_class: self.super_class,
            interfaces: self.interfaces.copy(alloc)?,
            fields: copy_list(alloc, &self.fields)?,
            methods: copy_list(alloc, &self.methods)?,
            attributes: copy_list(alloc, &self.attributes)?,
        })
    }
}
