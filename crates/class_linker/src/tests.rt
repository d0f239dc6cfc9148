use super::*;
use boot_classes::boot_table;
use jv_types::text::units;
use jv_types::{Cause, ClassData, Const, List, Loaded, Member, NoMemory, Text};
use std::alloc::Global;
use std::test::Fail;

/// A class of a test: its flags, its name, its superclass, and its interfaces, fields and methods.
#[derive(Drop)]
struct ClassRow(
    u16,
    &'static str,
    &'static str,
    &'static [&'static str],
    &'static [MemberRow],
    &'static [MemberRow],
);

/// A member: its flags, its name and its descriptor.
#[derive(Drop)]
struct MemberRow(u16, &'static str, &'static str);

/// What is told of a program: the number of a refusal, or 0; the class; and an index, or else the
/// number of classes.
#[derive(Drop)]
struct Outcome {
    number: u32,
    class: Text,
    index: u32,
}

fn push_const(pool: &mut List<Const>, entry: Const) -> Result<u16, NoMemory> {
    let Ok(index) = u16::try_from(pool.len()) else {
        return Err(NoMemory);
    };
    pool.push(entry)?;
    Ok(index)
}

fn push_text(alloc: Global, pool: &mut List<Const>, text: &str) -> Result<u16, NoMemory> {
    push_const(pool, Const::Utf8(units(alloc, text)?))
}

fn push_class(alloc: Global, pool: &mut List<Const>, name: &str) -> Result<u16, NoMemory> {
    let name = push_text(alloc, pool, name)?;
    push_const(pool, Const::Class(name))
}

fn members(
    alloc: Global,
    pool: &mut List<Const>,
    rows: &[MemberRow],
) -> Result<List<Member>, NoMemory> {
    let mut members = List::new(alloc);
    for row in rows {
        members.push(Member {
            flags: row.0,
            name: push_text(alloc, pool, row.1)?,
            descriptor: push_text(alloc, pool, row.2)?,
            attributes: List::new(alloc),
        })?;
    }
    Ok(members)
}

/// A class of which no method has code.
fn loaded(alloc: Global, row: &ClassRow) -> Result<Loaded, NoMemory> {
    let mut pool = List::new(alloc);
    push_const(&mut pool, Const::Gap)?;
    let this_class = push_class(alloc, &mut pool, row.1)?;
    let super_class = push_class(alloc, &mut pool, row.2)?;
    let mut interfaces = List::new(alloc);
    for interface in row.3 {
        interfaces.push(push_class(alloc, &mut pool, interface)?)?;
    }
    let fields = members(alloc, &mut pool, row.4)?;
    let methods = members(alloc, &mut pool, row.5)?;
    let file = ClassData {
        minor: 0,
        major: 52,
        pool,
        flags: row.0,
        this_class,
        super_class,
        interfaces,
        fields,
        methods,
        attributes: List::new(alloc),
    };
    Ok(Loaded {
        file,
        codes: List::new(alloc),
        base: 0,
    })
}

/// The number of a refusal, and its index.
fn numbers_of(cause: &Cause) -> (u32, u32) {
    match cause {
        Cause::Twice { .. } => (31, 0),
        Cause::Cycle { .. } => (32, 0),
        Cause::Unresolved { index, .. } => (33, *index),
        Cause::FinalOverride { .. } => (34, 0),
        Cause::NoMain => (35, 0),
        Cause::Descriptor { index, .. } => (36, *index),
        Cause::MethodKind { method, .. } => (37, *method),
        Cause::Reserved { .. } => (38, 0),
        _ => (1, 0),
    }
}

/// The class of which a refusal tells.
fn class_of(cause: &Cause) -> &[u16] {
    match cause {
        Cause::Twice { class }
        | Cause::Cycle { class }
        | Cause::Unresolved { class, .. }
        | Cause::FinalOverride { class }
        | Cause::Descriptor { class, .. }
        | Cause::MethodKind { class, .. }
        | Cause::Reserved { class } => class.as_slice(),
        _ => &[],
    }
}

fn outcome_of(alloc: Global, cause: &Cause) -> Result<Outcome, NoMemory> {
    let (number, index) = numbers_of(cause);
    Ok(Outcome {
        number,
        class: List::from_slice(alloc, class_of(cause))?,
        index,
    })
}

/// What is told of a program that is to start at the class `Main`.
fn told_of(alloc: Global, rows: &[ClassRow]) -> Result<Outcome, NoMemory> {
    let boot = boot_table(alloc)?;
    let main = units(alloc, "Main")?;
    let mut classes = List::new(alloc);
    for row in rows {
        classes.push(loaded(alloc, row)?)?;
    }
    match link(alloc, &boot, &classes, &main) {
        Ok(world) => Ok(Outcome {
            number: 0,
            class: List::new(alloc),
            index: world.copy(alloc)?.classes(),
        }),
        Err(LinkError::Refused(cause)) => outcome_of(alloc, &cause),
        Err(LinkError::NoMemory) => Err(NoMemory),
    }
}

const OBJECT: &str = "java/lang/Object";

const ARGUMENTS: &str = "([Ljava/lang/String;)V";

const MAIN: ClassRow = ClassRow(
    33,
    "Main",
    OBJECT,
    &[],
    &[],
    &[MemberRow(9, "main", ARGUMENTS)],
);

/// A class without members, of those flags below another.
macro_rules! plain {
    ($flags:literal $name:literal below $superclass:expr) => {
        ClassRow($flags, $name, $superclass, &[], &[], &[])
    };
}

#[test]
fn the_first_fault_is_told(rt: HostRuntime) -> Result<(), Fail> {
    // Programs, and what is told of each. An entry's index follows those of the class (1 and 2), of
    // its superclass (3 and 4), and of what stands before it.
    let cases: [(&[ClassRow], (u32, &str, u32)); 20] = [
        (&[MAIN], (0, "", 27)),
        (&[plain!(33 "A" below OBJECT), MAIN], (0, "", 28)),
        // Names that are kept are told before what stands twice.
        (
            &[MAIN, MAIN, plain!(33 "jvold/A" below OBJECT)],
            (38, "jvold/A", 0),
        ),
        (&[MAIN, MAIN], (31, "Main", 0)),
        (
            &[
                MAIN,
                ClassRow(
                    33,
                    "A",
                    OBJECT,
                    &[],
                    &[MemberRow(0, "a", "I"), MemberRow(1, "a", "I")],
                    &[],
                ),
            ],
            (31, "A", 0),
        ),
        // A field and a method may have one name, and so may fields of two types.
        (
            &[
                MAIN,
                ClassRow(
                    33,
                    "A",
                    OBJECT,
                    &[],
                    &[MemberRow(0, "a", "I"), MemberRow(0, "a", "Z")],
                    &[MemberRow(1024, "a", "()V")],
                ),
            ],
            (0, "", 28),
        ),
        // The least index is told.
        (
            &[
                MAIN,
                ClassRow(
                    33,
                    "A",
                    OBJECT,
                    &[],
                    &[
                        MemberRow(0, "a", "I"),
                        MemberRow(0, "b", "F"),
                        MemberRow(0, "c", "D"),
                    ],
                    &[],
                ),
            ],
            (36, "A", 8),
        ),
        // A descriptor is told before the kind of a method of a class before it.
        (
            &[
                ClassRow(33, "Main", OBJECT, &[], &[], &[MemberRow(256, "a", "()V")]),
                ClassRow(33, "A", OBJECT, &[], &[MemberRow(0, "a", "X")], &[]),
            ],
            (36, "A", 6),
        ),
        (
            &[ClassRow(
                33,
                "Main",
                OBJECT,
                &[],
                &[],
                &[MemberRow(9, "main", ARGUMENTS), MemberRow(256, "a", "()V")],
            )],
            (37, "Main", 1),
        ),
        // A class that only leads to a cycle is on none.
        (
            &[
                MAIN,
                plain!(33 "A" below "B"),
                plain!(33 "B" below "C"),
                plain!(33 "C" below "B"),
            ],
            (32, "B", 0),
        ),
        (&[MAIN, plain!(33 "A" below "A")], (32, "A", 0)),
        (
            &[MAIN, ClassRow(1537, "A", OBJECT, &["A"], &[], &[])],
            (32, "A", 0),
        ),
        // A cycle is told before what names nothing.
        (
            &[
                MAIN,
                plain!(33 "A" below "Absent"),
                plain!(33 "B" below "B"),
            ],
            (32, "B", 0),
        ),
        (&[MAIN, plain!(33 "A" below "Absent")], (33, "A", 4)),
        (
            &[MAIN, ClassRow(33, "A", OBJECT, &["Main"], &[], &[])],
            (33, "A", 6),
        ),
        (&[MAIN, plain!(1537 "A" below "Main")], (33, "A", 4)),
        (
            &[MAIN, plain!(33 "A" below "java/lang/String")],
            (34, "A", 0),
        ),
        (
            &[
                ClassRow(
                    33,
                    "Main",
                    "A",
                    &[],
                    &[],
                    &[MemberRow(9, "main", ARGUMENTS), MemberRow(1, "a", "()V")],
                ),
                ClassRow(33, "A", OBJECT, &[], &[], &[MemberRow(17, "a", "()V")]),
            ],
            (34, "Main", 0),
        ),
        // The main class is to declare its method itself, and as a static one.
        (
            &[
                plain!(33 "Main" below "A"),
                ClassRow(
                    33,
                    "A",
                    OBJECT,
                    &[],
                    &[],
                    &[MemberRow(9, "main", ARGUMENTS)],
                ),
            ],
            (35, "", 0),
        ),
        (
            &[ClassRow(
                33,
                "Main",
                OBJECT,
                &[],
                &[],
                &[MemberRow(1, "main", ARGUMENTS)],
            )],
            (35, "", 0),
        ),
    ];
    for (rows, (number, class, index)) in cases {
        let told = told_of(rt.alloc(), rows)?;
        assert_eq!(rt; told.number, number);
        assert_eq!(rt; told.class.as_slice(), units(rt.alloc(), class)?.as_slice());
        assert_eq!(rt; told.index, index);
    }
    Ok(())
}
