//! The constant pool of a class (JVMS 4.4).

ghost use Rattle.std.specs.Prelude.{◌≡◌, ◌-◌, ◌∷◌, ◌++◌, [], Err, OnOk, IfErr, option_map};
ghost use Rattle.jv_model.specs.Refusal.{Cause, wrong_constant};
ghost use Rattle.jv_model.specs.ClassData.{gap};
ghost use Rattle.jv_model.specs.ConstantPool.{tag_of, const_at, names, names_one_of, is_wide, units_at, is_named};
ghost use Rattle.jv_model.specs.Profile.{handle_tags, names_right};
ghost use Rattle.jv_model.specs.ClassReading.{entries_at, first_wrong, pool_at, index_at};
ghost use Rattle.jv_types.specs.ClassData.{const_of, pool_of};
ghost use Rattle.class_reader.specs.Entries.{with_gap};
ghost use Rattle.class_reader.specs.Gives.{GivesClass, IsRefusal};
ghost use Rattle.jv_model.specs.Input.{number_at, in_front};

use crate::constant::read_constant;
use crate::error::ClassError;
use jv_types::{Const, Input, List, NoMemory, is_text, tag};
use std::alloc::Global;
use std::marker::Model;

/// Whether an entry takes two indices (JVMS 4.4.5).
fn is_wide(constant: &Const) -> bool
    ensures { result ≡ is_wide (const_of constant.now) }
{
    matches!(constant, Const::Long(_) | Const::Double(_))
}

/// What a method handle of a kind may be of (JVMS 4.4.8).
fn handle_tags(major: u16, kind: u8) -> &'static [u8]
    ensures { result.now ≡ handle_tags major kind }
{
    match kind {
        1..=4 => &[tag::FIELDREF],
        5 | 8 => &[tag::METHODREF],
        6 | 7 if major >= 52 => &[tag::METHODREF, tag::INTERFACE_METHODREF],
        6 | 7 => &[tag::METHODREF],
        9 => &[tag::INTERFACE_METHODREF],
        _ => &[],
    }
}

/// Adds an entry, and the gap behind it where it takes two indices.
fn push_entry(entries: &mut List<Const>, constant: Const) -> Result<(), NoMemory>
    ensures { OnOk result (pool_of entries.new.items
        ≡ pool_of entries.old.items ++ with_gap (const_of constant)) }
{
    let has_gap = is_wide(&constant);
    entries.push(constant)?;
    if has_gap {
        entries.push(Const::Gap)?;
    }
    Ok(())
}

/// Reads the entries behind the gap at index 0. The count is one more than the last index.
fn read_entries(alloc: Global, count: u16, input: &mut Input) -> Result<List<Const>, ClassError>
    ensures { GivesClass (λ entries. (pool_of entries.items, input.new)) result
        (in_front (gap ∷ []) (entries_at 1 (count - 1) input.old)) }
{
    // The count isn't backed by the file's bytes, so no room is reserved for it.
    let end = u32::from(count);
    let mut entries = List::new(alloc);
    entries.push(Const::Gap)?;
    let mut index = 1;
    while index < end {
        let constant = read_constant(alloc, index, index + 1 == end, input)?;
        push_entry(&mut entries, constant)?;
        index = entries.len();
    }
    Ok(entries)
}

/// The constant pool of a class, lent. Contracts see its entries from index 0 on.
#[derive(Drop)]
pub struct Pool<'a> {
    entries: &'a List<Const>,
}

impl<'a> Model for Pool<'a> {
    ghost use Rattle.std.specs.Prelude.{List};
    ghost use Rattle.jv_model.specs.ClassData.{Const as ModelConst};
    ghost use Rattle.jv_types.specs.ClassData.{pool_of};

    ghost Value = { List ModelConst };

    ghost view = { λ it. pool_of it.entries.now.items };
}

impl<'a> Pool<'a> {
    pub fn of(entries: &'a List<Const>) -> Pool<'a>
        ensures { result ≡ pool_of entries.now.items }
    {
        Pool { entries }
    }

    /// The tag of the entry at an index, or 0 where none is there.
    fn tag(&self, index: u16) -> u8
        ensures { result ≡ tag_of (const_at self.now index) }
    {
        match self.entries.as_slice().get(usize::from(index)) {
            Some(constant) => constant.tag(),
            None => 0,
        }
    }

    /// Whether the entry at an index has this tag.
    pub fn names(&self, tag: u8, index: u16) -> bool
        ensures { result ≡ names self.now tag index }
    {
        self.tag(index) == tag
    }

    /// Whether it has one of these tags.
    pub fn names_one_of(&self, tags: &[u8], index: u16) -> bool
        ensures { result ≡ names_one_of self.now tags.now index }
    {
        let found = self.tag(index);
        tags.iter().any(|tag| found == *tag)
    }

    /// The text at an index, or none where no Utf8 entry is there.
    pub fn text(&self, index: u16) -> &'a [u16]
        ensures { result.now ≡ units_at self.now index }
    {
        match self.entries.as_slice().get(usize::from(index)) {
            Some(Const::Utf8(text)) => text.as_slice(),
            _ => &[],
        }
    }

    /// Whether the entry at an index is this text, in ASCII.
    pub fn is_named(&self, text: &[u8], index: u16) -> bool
        ensures { result ≡ is_named self.now text.now index }
    {
        match self.entries.as_slice().get(usize::from(index)) {
            Some(Const::Utf8(units)) => is_text(units.as_slice(), text),
            _ => false,
        }
    }

    /// Whether an entry names entries of the kinds that it needs.
    fn names_right(&self, major: u16, constant: &Const) -> bool
        ensures { result ≡ names_right major self.now (const_of constant.now) }
    {
        match *constant {
            Const::Gap
            | Const::Utf8(_)
            | Const::Integer(_)
            | Const::Float(_)
            | Const::Long(_)
            | Const::Double(_) => true,
            Const::Class(text) | Const::String(text) | Const::MethodType(text) => {
                self.names(tag::UTF8, text)
            }
            Const::Fieldref(owner, pair)
            | Const::Methodref(owner, pair)
            | Const::InterfaceMethodref(owner, pair) => {
                self.names(tag::CLASS, owner) && self.names(tag::NAME_AND_TYPE, pair)
            }
            Const::NameAndType(name, descriptor) => {
                self.names(tag::UTF8, name) && self.names(tag::UTF8, descriptor)
            }
            Const::MethodHandle(kind, member) => {
                self.names_one_of(handle_tags(major, kind), member)
            },
            Const::InvokeDynamic(_, pair) => self.names(tag::NAME_AND_TYPE, pair),
        }
    }

    /// The index of the first entry that names entries of wrong kinds.
    fn first_wrong(&self, major: u16) -> Option<u32>
        ensures { option_map wrong_constant result ≡ first_wrong major self.now 0 self.now }
    {
        for index in 0..self.entries.len() {
            if !self.names_right(major, self.entries.get(index)) {
                return Some(index);
            }
        }
        None
    }
}

/// Reads the constant pool. What an entry names is looked at once all are read.
#[tactic(auto, unfolding(jv_model::specs::ClassReading::pool_at))]
pub fn read_pool(alloc: Global, major: u16, input: &mut Input) -> Result<List<Const>, ClassError>
    ensures pool { GivesClass (λ entries. (pool_of entries.items, input.new)) result
        (pool_at major input.old) }
    ensures early { (cause : Cause) → number_at 2 input.old ≡ Err cause → IfErr result IsRefusal }
{
    let count = input.u2()?;
    let entries = read_entries(alloc, count, input)?;
    match Pool::of(&entries).first_wrong(major) {
        Some(index) => Err(ClassError::Pool { index }),
        None => Ok(entries),
    }
}

/// Reads an index that names an entry with this tag.
#[tactic(auto, unfolding(jv_model::specs::ClassReading::index_at))]
pub fn read_index(pool: &Pool, tag: u8, input: &mut Input) -> Result<u16, ClassError>
    ensures { GivesClass (λ index. (index, input.new)) result (index_at pool.now tag input.old) }
{
    let index = input.u2()?;
    if !pool.names(tag, index) {
        return Err(ClassError::Pool {
            index: u32::from(index),
        });
    }
    Ok(index)
}
