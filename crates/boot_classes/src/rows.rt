//! The boot classes as a table: a row for each class, in the order of their numbers.

use jv_types::ClassNo;

/// A row for a class.
#[derive(Drop)]
pub struct ClassRow {
    pub name: &'static str,
    pub kind: Kind,
    /// Only `java/lang/Object` has none.
    pub superclass: Option<ClassNo>,
    pub interfaces: &'static [ClassNo],
    pub fields: &'static [FieldRow],
    pub methods: &'static [MethodRow],
}

/// What a class is.
#[derive(Clone, Copy, PartialEq, Eq)]
pub enum Kind {
    Open,
    Final,
    Interface,
}

/// A field: its name, its descriptor, and whether it's static.
#[derive(Drop)]
pub struct FieldRow(pub &'static str, pub &'static str, pub bool);

/// A method: what it is, its name, and its descriptor.
#[derive(Drop)]
pub struct MethodRow(pub MethodKind, pub &'static str, pub &'static str);

/// What a method is.
#[derive(Clone, Copy, PartialEq, Eq)]
pub enum MethodKind {
    Abstract,
    Native,
    StaticNative,
}

use MethodKind::{Abstract, Native, StaticNative};

// The numbers of the classes that others stand below.
const OBJECT: ClassNo = ClassNo(0);

const RUNNABLE: ClassNo = ClassNo(2);

const THROWABLE: ClassNo = ClassNo(6);

const EXCEPTION: ClassNo = ClassNo(7);

const ERROR: ClassNo = ClassNo(8);

const RUNTIME_EXCEPTION: ClassNo = ClassNo(9);

const ILLEGAL_ARGUMENT: ClassNo = ClassNo(14);

const INDEX_OUT_OF_BOUNDS: ClassNo = ClassNo(16);

const LINKAGE_ERROR: ClassNo = ClassNo(22);

const INCOMPATIBLE_CLASS_CHANGE: ClassNo = ClassNo(23);

/// A row for a class below another, with its members.
macro_rules! class {
    ($kind:ident $name:literal below $superclass:ident, $fields:expr, $methods:expr) => {
        ClassRow {
            name: $name,
            kind: Kind::$kind,
            superclass: Some($superclass),
            interfaces: &[],
            fields: $fields,
            methods: $methods,
        }
    };
}

/// A row for a class of throwables, which has the constructors that each of them has.
macro_rules! throwable {
    ($name:literal below $superclass:ident) => {
        class!(Open $name below $superclass, &[], &[
            MethodRow(Native, "<init>", "()V"),
            MethodRow(Native, "<init>", "(Ljava/lang/String;)V"),
        ])
    };
}

/// The boot classes.
#[rattlefmt::skip]
pub const CLASSES: [ClassRow; 26] = [
    ClassRow {
        name: "java/lang/Object",
        kind: Kind::Open,
        superclass: None,
        interfaces: &[],
        fields: &[],
        methods: &[
            MethodRow(Native, "<init>", "()V"),
            MethodRow(Native, "equals", "(Ljava/lang/Object;)Z"),
        ],
    },
    class!(Final "java/lang/String" below OBJECT, &[], &[
        MethodRow(Native, "length", "()I"),
        MethodRow(Native, "charAt", "(I)C"),
        MethodRow(Native, "equals", "(Ljava/lang/Object;)Z"),
        MethodRow(Native, "concat", "(Ljava/lang/String;)Ljava/lang/String;"),
        MethodRow(StaticNative, "valueOf", "(I)Ljava/lang/String;"),
    ]),
    class!(Interface "java/lang/Runnable" below OBJECT, &[], &[MethodRow(Abstract, "run", "()V")]),
    ClassRow {
        name: "java/lang/Thread",
        kind: Kind::Open,
        superclass: Some(OBJECT),
        interfaces: &[RUNNABLE],
        fields: &[
            FieldRow("jvTarget", "Ljava/lang/Runnable;", false),
            FieldRow("jvNumber", "I", false),
        ],
        methods: &[
            MethodRow(Native, "<init>", "()V"),
            MethodRow(Native, "<init>", "(Ljava/lang/Runnable;)V"),
            MethodRow(Native, "start", "()V"),
            MethodRow(Native, "join", "()V"),
        ],
    },
    class!(Final "java/io/PrintStream" below OBJECT, &[], &[
        MethodRow(Native, "println", "()V"),
        MethodRow(Native, "print", "(I)V"),
        MethodRow(Native, "println", "(I)V"),
        MethodRow(Native, "print", "(C)V"),
        MethodRow(Native, "println", "(C)V"),
        MethodRow(Native, "print", "(Z)V"),
        MethodRow(Native, "println", "(Z)V"),
        MethodRow(Native, "print", "(Ljava/lang/String;)V"),
        MethodRow(Native, "println", "(Ljava/lang/String;)V"),
        MethodRow(Native, "print", "(J)V"),
        MethodRow(Native, "println", "(J)V"),
    ]),
    class!(Final "java/lang/System" below OBJECT, &[
        FieldRow("out", "Ljava/io/PrintStream;", true),
    ], &[]),
    class!(Open "java/lang/Throwable" below OBJECT, &[
        FieldRow("jvMessage", "Ljava/lang/String;", false),
    ], &[
        MethodRow(Native, "<init>", "()V"),
        MethodRow(Native, "<init>", "(Ljava/lang/String;)V"),
        MethodRow(Native, "getMessage", "()Ljava/lang/String;"),
    ]),
    throwable!("java/lang/Exception" below THROWABLE),
    throwable!("java/lang/Error" below THROWABLE),
    throwable!("java/lang/RuntimeException" below EXCEPTION),
    throwable!("java/lang/InterruptedException" below EXCEPTION),
    throwable!("java/lang/ArithmeticException" below RUNTIME_EXCEPTION),
    throwable!("java/lang/ArrayStoreException" below RUNTIME_EXCEPTION),
    throwable!("java/lang/ClassCastException" below RUNTIME_EXCEPTION),
    throwable!("java/lang/IllegalArgumentException" below RUNTIME_EXCEPTION),
    throwable!("java/lang/IllegalMonitorStateException" below RUNTIME_EXCEPTION),
    throwable!("java/lang/IndexOutOfBoundsException" below RUNTIME_EXCEPTION),
    throwable!("java/lang/NegativeArraySizeException" below RUNTIME_EXCEPTION),
    throwable!("java/lang/NullPointerException" below RUNTIME_EXCEPTION),
    throwable!("java/lang/IllegalThreadStateException" below ILLEGAL_ARGUMENT),
    throwable!("java/lang/ArrayIndexOutOfBoundsException" below INDEX_OUT_OF_BOUNDS),
    throwable!("java/lang/StringIndexOutOfBoundsException" below INDEX_OUT_OF_BOUNDS),
    throwable!("java/lang/LinkageError" below ERROR),
    throwable!("java/lang/IncompatibleClassChangeError" below LINKAGE_ERROR),
    throwable!("java/lang/AbstractMethodError" below INCOMPATIBLE_CLASS_CHANGE),
    class!(Final "jvolve/Updates" below OBJECT, &[], &[MethodRow(StaticNative, "request", "()V")]),
];
