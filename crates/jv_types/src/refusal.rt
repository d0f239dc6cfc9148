//! Why input is refused.

use crate::text::Text;

/// What is wrong with a line of a text.
#[derive(Clone, Copy, Debug, PartialEq, Eq)]
pub enum LineKind {
    /// It isn't UTF-8, or no line feed ends it.
    Text,
    /// The first line isn't the one that the text has to begin with.
    Head,
    /// A word that has to be one of a few is another one.
    Word,
    /// It may not stand here.
    Order,
    /// It has too few or too many words.
    Count,
    /// A number is ill formed or out of its range.
    Number,
    /// A label, or what a line names, isn't there or is there twice.
    Label,
    /// A branch or an index goes too far.
    Range,
    /// It is one more than the limit allows.
    Many,
    /// The block that the last line stands in has no end.
    Open,
    /// No line up to the last one names the main class, or this is the second that does.
    Main,
    /// The class that was read has another name than its line says.
    Name,
}

/// What has a limit, or a list whose count has two bytes.
#[derive(Clone, Copy, Debug, PartialEq, Eq)]
pub enum What {
    /// The bytes of a file.
    File,
    /// The bytes of all class files together.
    Total,
    /// The entries of a constant pool, with the gap at its front.
    Pool,
    /// The bytes of a text in a constant pool.
    Utf8,
    Interfaces,
    Fields,
    Methods,
    /// Those of a class, a field or a method.
    Attributes,
}

/// Which rule of the verifier a method breaks (JVMS 4.10.1).
#[derive(Clone, Copy, Debug, PartialEq, Eq)]
pub enum Rule {
    /// The frame that comes isn't assignable to the stack map frame.
    Map,
    /// No frame comes, and there is no stack map frame.
    After,
    /// A handler's stack map frame isn't there, or doesn't take what comes.
    Handler,
    /// The instruction can't be applied to the frame.
    Operand,
    /// A target's stack map frame isn't there, or doesn't take what comes.
    Target,
    /// Flow goes past the last instruction.
    End,
}

/// Why input is refused. A user sees the number and the words that `cause_words` of the definitions
/// gives each. Numbers of lines count from 1, places of bytes from 0; `method` is a method's index
/// in its class, and `index` one of the constant pool but where another one is named.
#[derive(Debug, Drop)]
pub enum Cause {
    /// 1: the item of a class file that begins at this byte isn't whole.
    Truncated {
        at: u32,
    },
    /// 2: the file doesn't begin with the magic number of class files.
    Magic,
    /// 3: it has this major version, which is not that of Java SE 7 or 8.
    Version {
        major: u32,
    },
    /// 4: the entry has no kind or names entries of wrong kinds, or isn't of the kind that is
    /// needed where it's named.
    Pool {
        index: u32,
    },
    /// 5: the bytes of the entry spell no text.
    Utf8 {
        index: u32,
    },
    /// 6: an attribute, or the method at this byte, breaks the rule on how often an attribute
    /// stands there, or on its length.
    Attribute {
        at: u32,
    },
    /// 7: the last attribute ends at this byte, and more follows.
    Extra {
        at: u32,
    },
    /// 8: there are so many.
    Limit {
        what: What,
        n: u64,
    },
    /// 11: there is no such opcode.
    Opcode {
        method: u32,
        pc: u32,
    },
    /// 12: an operand isn't allowed, or is cut.
    Operand {
        method: u32,
        pc: u32,
    },
    /// 13: the branch leads to no instruction.
    Target {
        method: u32,
        pc: u32,
    },
    /// 14: a row of the exception table.
    Handler {
        method: u32,
        row: u32,
    },
    /// 15: a frame of the stack map, by its number.
    MapFrame {
        method: u32,
        index: u32,
    },
    /// 16: the instruction, or the constant that it names, isn't in the profile.
    Unsupported {
        method: u32,
        pc: u32,
    },
    /// 17: the locals and the stack take so many words.
    FrameTooBig {
        method: u32,
        words: u32,
    },
    /// 18: the Code attribute's parts don't fill it, at this byte of its contents.
    Shape {
        method: u32,
        at: u32,
    },
    /// 21: a list of class data is longer than its count can say.
    CountLimit {
        what: What,
        n: u64,
    },
    /// 22: a line of an assembler text.
    AsmLine {
        line: u32,
        kind: LineKind,
    },
    /// 31: a class, or a member of this class, stands twice.
    Twice {
        class: Text,
    },
    /// 32: the class is above itself.
    Cycle {
        class: Text,
    },
    /// 33: a used entry names nothing, or something of the wrong kind.
    Unresolved {
        class: Text,
        index: u32,
    },
    /// 34: a final class or method is above it.
    FinalOverride {
        class: Text,
    },
    /// 35: there is no main method.
    NoMain,
    /// 36: a descriptor is ill formed, or of types that this machine hasn't.
    Descriptor {
        class: Text,
        index: u32,
    },
    /// 37: a method of a kind that isn't supported.
    MethodKind {
        class: Text,
        method: u32,
    },
    /// 38: the class has a name that is kept for the machine's own.
    Reserved {
        class: Text,
    },
    /// 41: the method breaks this rule of the verifier at this place.
    NotVerified {
        class: Text,
        name: Text,
        descriptor: Text,
        pc: u32,
        rule: Rule,
    },
    /// 51: a line of an update's text.
    BundleLine {
        line: u32,
        kind: LineKind,
    },
    /// 52: the text is of another version.
    BundleVersion {
        n: u32,
    },
    /// 53: an update has a class with a kept name.
    Boot {
        class: Text,
    },
    /// 54: a class would lose this supertype.
    Narrowed {
        class: Text,
        lost: Text,
    },
    /// 55: a class would become an interface, or the other way round.
    KindChanged {
        class: Text,
    },
    /// 56: the line names a method that isn't there.
    NoSuchMethod {
        line: u32,
    },
    /// 57: a transformer is ill formed.
    Transformer {
        descriptor: Text,
    },
    /// 58: the frames of a method can't go on where the line says.
    MapPoint {
        line: u32,
    },
    /// 71: a line of the manifest.
    ManifestLine {
        line: u32,
        kind: LineKind,
    },
    /// 72: the input has a form that this version doesn't run yet.
    Later,
    /// 81: the image isn't whole, or is no image, at this byte.
    Image {
        at: u32,
    },
    /// 82: this part of the path leads nowhere.
    NoPath {
        part: u32,
    },
    /// 83: a line of a script.
    ScriptLine {
        line: u32,
        kind: LineKind,
    },
}
