//! A class file (JVMS 4.1).

ghost use Rattle.std.specs.Prelude.{◌≡◌, ◌≤◌, ℕ, IfOk, IfErr, MatchResult, Ok, Err, Some, length};
ghost use Rattle.jv_model.specs.Limits.{most_file_bytes};
ghost use Rattle.jv_model.specs.Refusal.{Cause};
ghost use Rattle.jv_model.specs.ClassData.{ClassData as ClassFileData};
ghost use Rattle.jv_model.specs.Profile.{SpellsClass};
ghost use Rattle.jv_model.specs.ClassReading.{classes_at, versions_at, class_body_at, class_at, class_of};
ghost use Rattle.jv_types.specs.ClassData.{class_data_of};
ghost use Rattle.class_reader.specs.ClassBody.{class_with};
ghost use Rattle.class_reader.specs.Gives.{GivesClass, class_refusal, IsRefusal};
ghost use Rattle.class_reader.specs.Head.{head_at, head_of};

use crate::attribute::{Owner, read_attributes};
use crate::constant_pool::{Pool, read_index, read_pool};
use crate::error::ClassError;
use crate::member::{MemberKind, read_members};
use jv_types::{Attr, ClassData, Input, List, MOST_FILE_BYTES, Member, What, tag};
use std::alloc::Global;

/// What each class file begins with.
pub const MAGIC: u32 = 0xcafe_babe;

/// The minor and the major version of a class file.
#[derive(Clone, Copy)]
struct Versions {
    minor: u16,
    major: u16,
}

/// What stands behind the constant pool.
#[derive(Drop)]
struct ClassBody {
    flags: u16,
    this_class: u16,
    super_class: u16,
    interfaces: List<u16>,
    fields: List<Member>,
    methods: List<Member>,
    attributes: List<Attr>,
}

/// Reads the magic number and the versions. The major ones are those of Java SE 7 and 8.
#[tactic(auto, unfolding(jv_model::specs::ClassReading::versions_at))]
fn read_versions(input: &mut Input) -> Result<Versions, ClassError>
    ensures versions { GivesClass (λ versions. ((versions.minor, versions.major), input.new)) result
        (versions_at input.old) }
    ensures early { IfErr result IsRefusal }
{
    if input.u4()? != MAGIC {
        return Err(ClassError::Magic);
    }
    let minor = input.u2()?;
    let major = input.u2()?;
    if major != 51 && major != 52 {
        return Err(ClassError::Version {
            major: u32::from(major),
        });
    }
    Ok(Versions { minor, major })
}

/// Reads the indices of so many classes.
fn read_classes(
    alloc: Global,
    pool: &Pool,
    count: u16,
    input: &mut Input,
) -> Result<List<u16>, ClassError>
    ensures { GivesClass (λ classes. (classes.items, input.new)) result
        (classes_at pool.now count input.old) }
{
    let mut classes = List::new(alloc);
    for _ in 0..count {
        let class = read_index(pool, tag::CLASS, input)?;
        classes.push(class)?;
    }
    Ok(classes)
}

/// Reads what stands behind the constant pool.
#[tactic(auto, unfolding(jv_model::specs::ClassReading::class_body_at))]
fn read_class_body(alloc: Global, pool: &Pool, input: &mut Input) -> Result<ClassBody, ClassError>
    ensures { (minor major : ℕ)
        → GivesClass (λ body. (class_with minor major pool.now body, input.new)) result
        (class_body_at minor major pool.now input.old) }
{
    let flags = input.u2()?;
    let this_class = read_index(pool, tag::CLASS, input)?;
    let super_class = read_index(pool, tag::CLASS, input)?;
    let count = input.u2()?;
    let interfaces = read_classes(alloc, pool, count, input)?;
    let count = input.u2()?;
    let fields = read_members(alloc, pool, MemberKind::Field, count, input)?;
    let count = input.u2()?;
    let methods = read_members(alloc, pool, MemberKind::Method, count, input)?;
    let count = input.u2()?;
    let attributes = read_attributes(alloc, pool, Owner::Class, count, input)?;
    Ok(ClassBody {
        flags,
        this_class,
        super_class,
        interfaces,
        fields,
        methods,
        attributes,
    })
}

/// Reads a class file, behind whose last attribute anything may stand.
#[tactic(auto, unfolding(jv_model::specs::ClassReading::class_at))]
fn read_front(alloc: Global, input: &mut Input) -> Result<ClassData, ClassError>
    ensures file { GivesClass (λ file. (class_data_of file, input.new)) result
        (class_at input.old) }
    ensures early { (cause : Cause) → head_at input.old ≡ Err cause → IfErr result IsRefusal }
{
    let versions = read_versions(input)?;
    let entries = read_pool(alloc, versions.major, input)?;
    let body = read_class_body(alloc, &Pool::of(&entries), input)?;
    Ok(ClassData {
        minor: versions.minor,
        major: versions.major,
        pool: entries,
        flags: body.flags,
        this_class: body.this_class,
        super_class: body.super_class,
        interfaces: body.interfaces,
        fields: body.fields,
        methods: body.methods,
        attributes: body.attributes,
    })
}

/// What the bytes of a class file say, all of them.
#[tactic(auto, unfolding(jv_model::specs::ClassReading::class_of))]
fn read_whole(alloc: Global, bytes: &[u8]) -> Result<ClassData, ClassError>
    ensures file { GivesClass class_data_of result (class_of bytes.now) }
    ensures early { (cause : Cause) → head_of bytes.now ≡ Err cause → IfErr result IsRefusal }
{
    if bytes.len() as u64 > MOST_FILE_BYTES {
        return Err(ClassError::Limit {
            what: What::File,
            n: bytes.len() as u64,
        });
    }
    let mut input = Input::whole_of(bytes);
    let file = read_front(alloc, &mut input)?;
    if !input.is_empty() {
        return Err(ClassError::Extra { at: input.at() });
    }
    Ok(file)
}

/// What the bytes of a class file say (JVMS 4.1), of which there may be 1,048,576.
///
/// The error is the first thing that is wrong, from the front. What entries of the constant pool
/// name is looked at once all of them are read. A file that is too long has that error alone.
/// Memory is wanted only once the magic number, the versions and the pool's count are read.
pub fn read_class(alloc: Global, bytes: &[u8]) -> Result<ClassData, ClassError>
    // What is read is spelled so.
    ensures found { IfOk result (λ file. SpellsClass bytes.now (class_data_of file)) }

    // What is spelled so is read, unless memory runs out.
    ensures only { (file : ClassFileData) → SpellsClass bytes.now file
        → length bytes.now ≤ most_file_bytes → GivesClass class_data_of result (Ok file) }

    // Which refusal it is.
    ensures refusal { GivesClass class_data_of result (class_of bytes.now) }

    // What is wrong in front of the pool's entries is told, however little memory there is.
    ensures early { (cause : Cause) → head_of bytes.now ≡ Err cause
        → MatchResult result (λ _. ⊥) (λ error. class_refusal error ≡ Some cause) }
{
    read_whole(alloc, bytes)
}
