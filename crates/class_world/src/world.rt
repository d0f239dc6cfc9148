//! A world of classes by number.

ghost use Rattle.std.specs.Prelude.{◌≡◌, ◌+◌, ◌<◌, ◌≤◌, Some, length, option_map, slice_get, IfOk};
ghost use Rattle.world_model.specs.World.{declared_method};
ghost use Rattle.world_model.specs.Supertypes.{field_order, method_order, is_sub as is_sub_of};
ghost use Rattle.world_model.specs.LookUp.{find_field as field_found, find_method as method_found};

use crate::class_info::{ClassInfo, FieldPlace, copy_classes};
use crate::member_table::MemberTable;
use crate::orders::{field_orders, method_orders};
use crate::search::{is_among, signature};
use crate::signatures::declare_members;
use class_names::Names;
use jv_types::{ClassNo, List, MethodNo, NoMemory, Steps, Text};
use std::alloc::Global;
use std::marker::Model;
use std::sync::ledger::Ledger;

/// The classes of a program, boot classes first. Contracts see the definitions' world.
#[derive(Drop)]
pub struct World {
    classes: List<ClassInfo>,
    /// The names of the classes, by their numbers.
    names: Names,
    /// The names and descriptors of members.
    texts: Names,
    fields: MemberTable,
    methods: MemberTable,
}

impl Model for World {
    ghost use Rattle.world_model.specs.World.{World as ModelWorld};

    ghost Value = { ModelWorld };

    ghost use Rattle.class_world.specs.World.{world_of_infos, IsWorld};

    ghost view = { λ it. world_of_infos it.classes.items };

    ghost invariant = { λ it. IsWorld it.classes.items it.names it.texts it.fields it.methods };
}

impl World {
    ghost use Rattle.class_world.specs.World.{number_of, name_at, IsInfo, field_at, method_at};
    ghost use Rattle.class_world.specs.World.{AreInfos, IsAcyclic, HaveMembersOnce, names_of, world_of_infos};

    /// The world of some classes. Each has the numbers of its supertypes, no class is above itself,
    /// and no class has two fields or two methods of one name and descriptor. It fails only for
    /// want of memory.
    pub fn of(alloc: Global, names: Names, classes: List<ClassInfo>) -> Result<World, NoMemory>
        requires infos { AreInfos classes.items }
        requires names { names ≡ names_of (world_of_infos classes.items) }
        requires acyclic { IsAcyclic (world_of_infos classes.items) }
        requires once { HaveMembersOnce (world_of_infos classes.items) }
        ensures { IfOk result (λ world. world ≡ world_of_infos classes.items) }
    {
        let mut texts = Names::new(alloc);
        let declared = declare_members(alloc, &mut texts, classes.as_slice())?;
        let field_orders = field_orders(alloc, classes.as_slice())?;
        let method_orders = method_orders(alloc, classes.as_slice())?;
        Ok(World {
            fields: MemberTable::new(field_orders, declared.fields),
            methods: MemberTable::new(method_orders, declared.methods),
            classes,
            names,
            texts,
        })
    }

    /// An equal world, unless there is no memory for it.
    pub fn copy(&self, alloc: Global) -> Result<World, NoMemory>
        ensures { IfOk result (λ copy. copy ≡ self.now) }
    {
        let classes = copy_classes(alloc, self.classes.as_slice())?;
        let names = self.names.copy(alloc)?;
        let world = World::of(alloc, names, classes)?;
        Ok(world)
    }

    /// The number of classes.
    pub fn classes(&self) -> u32
        ensures { result ≡ length self.now.classes }
    {
        self.classes.len()
    }

    /// The class of a name, where it's there.
    pub fn find_class(&self, name: &Text) -> Option<ClassNo>
        ensures { result ≡ number_of self.now name.now.items }
    {
        self.class_named(name.as_slice())
    }

    /// The class of a name that is lent as its units, where it's there.
    pub fn class_named(&self, name: &[u16]) -> Option<ClassNo>
        ensures { result ≡ number_of self.now name.now }
    {
        self.names.number_of(name).map(ClassNo)
    }

    /// The class of a number.
    pub fn class(&self, class: ClassNo) -> &ClassInfo
        requires { class.0 < length self.now.classes }
        ensures { (c : _) × (slice_get self.now.classes class.0 ≡ Some c)
            × IsInfo self.now c result.now }
    {
        self.classes.get(class.0)
    }

    /// Whether a class is another, or below it (JVMS 4.10.1.2). Each class looked at is a step.
    pub fn is_sub<L: Ledger>(&self, below: ClassNo, above: ClassNo, steps: &mut Steps<L>) -> bool
        requires below { below.0 < length self.now.classes }
        requires above { above.0 < length self.now.classes }
        ensures found { result
            ≡ is_sub_of self.now (name_at self.now below) (name_at self.now above) }
        ensures steps { steps.new
            ≤ steps.old + length (field_order self.now (name_at self.now below)) }
    {
        is_among(self.fields.order(below), above, steps)
    }

    /// The field that a class has with a name and a descriptor (JVMS 5.4.3.2). Each class looked
    /// at is a step.
    pub fn find_field<L: Ledger>(
        &self,
        class: ClassNo,
        name: &Text,
        descriptor: &Text,
        steps: &mut Steps<L>,
    ) -> Option<FieldPlace>
        requires { class.0 < length self.now.classes }
        ensures found { option_map (field_at self.now) result
            ≡ option_map Some
            (field_found self.now (name_at self.now class) name.now.items descriptor.now.items) }
        ensures steps { steps.new
            ≤ steps.old + length (field_order self.now (name_at self.now class)) }
    {
        self.field_named(class, name.as_slice(), descriptor.as_slice(), steps)
    }

    /// The same of a name and a descriptor that are lent as their units.
    pub fn field_named<L: Ledger>(
        &self,
        class: ClassNo,
        name: &[u16],
        descriptor: &[u16],
        steps: &mut Steps<L>,
    ) -> Option<FieldPlace>
        requires { class.0 < length self.now.classes }
        ensures found { option_map (field_at self.now) result
            ≡ option_map Some
            (field_found self.now (name_at self.now class) name.now descriptor.now) }
        ensures steps { steps.new
            ≤ steps.old + length (field_order self.now (name_at self.now class)) }
    {
        let signature = signature(&self.texts, name, descriptor)?;
        let (class, index) = self.fields.find(class, signature, steps)?;
        Some(FieldPlace { class, index })
    }

    /// The method that a class has with a name and a descriptor (JVMS 5.4.3.3). Each class looked
    /// at is a step.
    pub fn find_method<L: Ledger>(
        &self,
        class: ClassNo,
        name: &Text,
        descriptor: &Text,
        steps: &mut Steps<L>,
    ) -> Option<MethodNo>
        requires { class.0 < length self.now.classes }
        ensures found { option_map (method_at self.now) result
            ≡ option_map Some
            (method_found self.now (name_at self.now class) name.now.items descriptor.now.items) }
        ensures steps { steps.new
            ≤ steps.old + length (method_order self.now (name_at self.now class)) }
    {
        self.method_named(class, name.as_slice(), descriptor.as_slice(), steps)
    }

    /// The same of a name and a descriptor that are lent as their units.
    pub fn method_named<L: Ledger>(
        &self,
        class: ClassNo,
        name: &[u16],
        descriptor: &[u16],
        steps: &mut Steps<L>,
    ) -> Option<MethodNo>
        requires { class.0 < length self.now.classes }
        ensures found { option_map (method_at self.now) result
            ≡ option_map Some
            (method_found self.now (name_at self.now class) name.now descriptor.now) }
        ensures steps { steps.new
            ≤ steps.old + length (method_order self.now (name_at self.now class)) }
    {
        let signature = signature(&self.texts, name, descriptor)?;
        let (class, index) = self.methods.find(class, signature, steps)?;
        Some(MethodNo { class, index })
    }

    /// The index of the method that a class itself declares with a name and a descriptor, lent as
    /// their units.
    pub fn own_method(&self, class: ClassNo, name: &[u16], descriptor: &[u16]) -> Option<u32>
        requires { class.0 < length self.now.classes }
        ensures { (c : _) × (slice_get self.now.classes class.0 ≡ Some c)
            × (option_map (slice_get c.methods) result
            ≡ option_map Some (declared_method name.now descriptor.now c)) }
    {
        let signature = signature(&self.texts, name, descriptor)?;
        self.methods.own(class, signature)
    }
}
