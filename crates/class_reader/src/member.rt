//! The fields (JVMS 4.5) and the methods (JVMS 4.6) of a class.

ghost use Rattle.std.specs.Prelude.{◌≡◌};
ghost use Rattle.jv_model.specs.Profile.{has_code};
ghost use Rattle.jv_model.specs.ClassReading.{owner_of as owner_of_member, member_at, members_at};
ghost use Rattle.jv_types.specs.ClassData.{member_of, members_of};
ghost use Rattle.class_reader.specs.Gives.{GivesClass};
ghost use Rattle.class_reader.specs.MemberKind.{kind_of};
ghost use Rattle.class_reader.specs.Owner.{owner_of};

use crate::attribute::{Owner, read_attributes};
use crate::constant_pool::{Pool, read_index};
use crate::error::ClassError;
use jv_types::{Input, List, Member, tag};
use std::alloc::Global;

/// The flag of a native method (JVMS 4.6).
const NATIVE: u16 = 0x100;

/// The flag of an abstract method (JVMS 4.6).
const ABSTRACT: u16 = 0x400;

/// What a member is.
#[derive(Clone, Copy)]
pub enum MemberKind {
    Field,
    Method,
}

/// Whether a method with these flags has code (JVMS 4.7.3).
fn has_code(flags: u16) -> bool
    ensures { result ≡ has_code flags }
{
    flags & NATIVE == 0 && flags & ABSTRACT == 0
}

/// The owner of the attributes of a member whose flags stand at that place.
fn owner_of(kind: MemberKind, place: u32, flags: u16, descriptor: u16) -> Owner
    ensures { owner_of result ≡ owner_of_member (kind_of kind) place flags descriptor }
{
    match kind {
        MemberKind::Field => Owner::Field {
            descriptor,
            may_come: true,
        },
        MemberKind::Method => Owner::Method {
            flags: place,
            is_due: has_code(flags),
        },
    }
}

/// Reads a member.
#[tactic(auto, unfolding(jv_model::specs::ClassReading::member_at))]
fn read_member(
    alloc: Global,
    pool: &Pool,
    kind: MemberKind,
    input: &mut Input,
) -> Result<Member, ClassError>
    ensures { GivesClass (λ member. (member_of member, input.new)) result
        (member_at pool.now (kind_of kind) input.old) }
{
    let place = input.at();
    let flags = input.u2()?;
    let name = read_index(pool, tag::UTF8, input)?;
    let descriptor = read_index(pool, tag::UTF8, input)?;
    let count = input.u2()?;
    let owner = owner_of(kind, place, flags, descriptor);
    let attributes = read_attributes(alloc, pool, owner, count, input)?;
    Ok(Member {
        flags,
        name,
        descriptor,
        attributes,
    })
}

/// Reads so many members.
pub fn read_members(
    alloc: Global,
    pool: &Pool,
    kind: MemberKind,
    count: u16,
    input: &mut Input,
) -> Result<List<Member>, ClassError>
    ensures { GivesClass (λ members. (members_of members.items, input.new)) result
        (members_at pool.now (kind_of kind) count input.old) }
{
    let mut members = List::new(alloc);
    for _ in 0..count {
        let member = read_member(alloc, pool, kind, input)?;
        members.push(member)?;
    }
    Ok(members)
}
