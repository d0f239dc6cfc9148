//! Why input is refused, in words.

ghost use Rattle.std.specs.Prelude.{◌≡◌, ◌++◌, ◌∷◌, [], codes, decimal, OnOk};
ghost use Rattle.jv_model.specs.Utf16.{printed_units};
ghost use Rattle.jv_types.specs.Refusal.{cause_of, limited_of, line_kind_of, rule_of};
ghost use Rattle.text_model.specs.CauseWords.{cause_words, limited_word, line_kind_word, rule_word};
ghost use Rattle.run_text.specs.Following.{following};

use crate::words::{push_name, push_number, push_word};
use jv_types::{Bytes, Cause, LineKind, NoMemory, Rule, Text, What};

fn line_kind_word(kind: LineKind) -> &'static str
    ensures { result.now ≡ line_kind_word (line_kind_of kind) }
{
    match kind {
        LineKind::Text => "text",
        LineKind::Head => "head",
        LineKind::Word => "word",
        LineKind::Order => "order",
        LineKind::Count => "count",
        LineKind::Number => "number",
        LineKind::Label => "label",
        LineKind::Range => "range",
        LineKind::Many => "many",
        LineKind::Open => "open",
        LineKind::Main => "main",
        LineKind::Name => "name",
    }
}

fn limited_word(what: What) -> &'static str
    ensures { result.now ≡ limited_word (limited_of what) }
{
    match what {
        What::File => "file",
        What::Total => "total",
        What::Pool => "pool",
        What::Utf8 => "utf8",
        What::Interfaces => "interfaces",
        What::Fields => "fields",
        What::Methods => "methods",
        What::Attributes => "attributes",
    }
}

fn rule_word(rule: Rule) -> &'static str
    ensures { result.now ≡ rule_word (rule_of rule) }
{
    match rule {
        Rule::Map => "map",
        Rule::After => "after",
        Rule::Handler => "handler",
        Rule::Operand => "operand",
        Rule::Target => "target",
        Rule::End => "end",
    }
}

/// Adds a refusal's number and name, and one number.
fn push_one(text: &mut Bytes, words: &str, number: u32) -> Result<(), NoMemory>
    ensures { OnOk result (text.new.items ≡ text.old.items ++ following (words.now ∷ decimal number ∷ [])) }
{
    push_word(text, words)?;
    push_number(text, u64::from(number))
}

/// Adds a refusal's number and name, and two numbers.
fn push_two(text: &mut Bytes, words: &str, first: u32, second: u32) -> Result<(), NoMemory>
    ensures { OnOk result (text.new.items ≡ text.old.items
        ++ following (words.now ∷ decimal first ∷ decimal second ∷ [])) }
{
    push_one(text, words, first)?;
    push_number(text, u64::from(second))
}

/// Adds a refusal's number and name, what has a limit, and how many there are.
fn push_limit(text: &mut Bytes, words: &str, what: What, count: u64) -> Result<(), NoMemory>
    ensures { OnOk result (text.new.items ≡ text.old.items
        ++ following (words.now ∷ limited_word (limited_of what) ∷ decimal count ∷ [])) }
{
    push_word(text, words)?;
    push_word(text, limited_word(what))?;
    push_number(text, count)
}

/// Adds a refusal's number and name, the number of a line, and what is wrong with it.
fn push_line(text: &mut Bytes, words: &str, line: u32, kind: LineKind) -> Result<(), NoMemory>
    ensures { OnOk result (text.new.items ≡ text.old.items
        ++ following (words.now ∷ decimal line ∷ line_kind_word (line_kind_of kind) ∷ [])) }
{
    push_one(text, words, line)?;
    push_word(text, line_kind_word(kind))
}

/// Adds a refusal's number and name, and the name of a class or what else stands in a class file.
fn push_class(text: &mut Bytes, words: &str, class: &Text) -> Result<(), NoMemory>
    ensures { OnOk result (text.new.items ≡ text.old.items
        ++ following (words.now ∷ printed_units class.now.items ∷ [])) }
{
    push_word(text, words)?;
    push_name(text, class)
}

/// Adds a refusal's number and name, the name of a class, and a number.
fn push_in_class(text: &mut Bytes, words: &str, class: &Text, number: u32) -> Result<(), NoMemory>
    ensures { OnOk result (text.new.items ≡ text.old.items
        ++ following (words.now ∷ printed_units class.now.items ∷ decimal number ∷ [])) }
{
    push_class(text, words, class)?;
    push_number(text, u64::from(number))
}

/// Adds a refusal's number and name, and two names.
fn push_names(text: &mut Bytes, words: &str, first: &Text, second: &Text) -> Result<(), NoMemory>
    ensures { OnOk result (text.new.items ≡ text.old.items
        ++ following (words.now ∷ printed_units first.now.items ∷ printed_units second.now.items ∷ [])) }
{
    push_class(text, words, first)?;
    push_name(text, second)
}

/// Adds a method, the place in its code, and the rule of the verifier that is broken there.
fn push_broken_rule(
    text: &mut Bytes,
    class: &Text,
    name: &Text,
    descriptor: &Text,
    pc: u32,
    rule: Rule,
) -> Result<(), NoMemory>
    ensures { OnOk result (text.new.items ≡ text.old.items
        ++ following (codes "41 not verified" ∷ printed_units class.now.items ∷ printed_units name.now.items
        ∷ printed_units descriptor.now.items ∷ decimal pc ∷ rule_word (rule_of rule) ∷ [])) }
{
    push_names(text, "41 not verified", class, name)?;
    push_name(text, descriptor)?;
    push_number(text, u64::from(pc))?;
    push_word(text, rule_word(rule))
}

/// Adds a refusal's number, its name and its fields, each behind a space.
#[tactic(auto, unfolding(text_model::specs::CauseWords::cause_words))]
pub(crate) fn push_cause(text: &mut Bytes, cause: &Cause) -> Result<(), NoMemory>
    ensures { OnOk result (text.new.items ≡ text.old.items
        ++ following (cause_words (cause_of cause.now))) }
{
    match cause {
        Cause::Truncated { at } => push_one(text, "1 truncated", *at),
        Cause::Magic => push_word(text, "2 magic"),
        Cause::Version { major } => push_one(text, "3 version", *major),
        Cause::Pool { index } => push_one(text, "4 pool", *index),
        Cause::Utf8 { index } => push_one(text, "5 utf8", *index),
        Cause::Attribute { at } => push_one(text, "6 attribute", *at),
        Cause::Extra { at } => push_one(text, "7 extra", *at),
        Cause::Limit { what, n } => push_limit(text, "8 limit", *what, *n),
        Cause::Opcode { method, pc } => push_two(text, "11 opcode", *method, *pc),
        Cause::Operand { method, pc } => push_two(text, "12 operand", *method, *pc),
        Cause::Target { method, pc } => push_two(text, "13 target", *method, *pc),
        Cause::Handler { method, row } => push_two(text, "14 handler", *method, *row),
        Cause::MapFrame { method, index } => push_two(text, "15 map frame", *method, *index),
        Cause::Unsupported { method, pc } => push_two(text, "16 unsupported", *method, *pc),
        Cause::FrameTooBig { method, words } => push_two(text, "17 frame too big", *method, *words),
        Cause::Shape { method, at } => push_two(text, "18 shape", *method, *at),
        Cause::CountLimit { what, n } => push_limit(text, "21 limit", *what, *n),
        Cause::AsmLine { line, kind } => push_line(text, "22 asm line", *line, *kind),
        Cause::Twice { class } => push_class(text, "31 twice", class),
        Cause::Cycle { class } => push_class(text, "32 cycle", class),
        Cause::Unresolved { class, index } => push_in_class(text, "33 unresolved", class, *index),
        Cause::FinalOverride { class } => push_class(text, "34 final override", class),
        Cause::NoMain => push_word(text, "35 no main"),
        Cause::Descriptor { class, index } => push_in_class(text, "36 descriptor", class, *index),
        Cause::MethodKind { class, method } => push_in_class(
            text,
            "37 method kind",
            class,
            *method,
        ),
        Cause::Reserved { class } => push_class(text, "38 reserved", class),
        Cause::NotVerified {
            class,
            name,
            descriptor,
            pc,
            rule,
        } => push_broken_rule(text, class, name, descriptor, *pc, *rule),
        Cause::BundleLine { line, kind } => push_line(text, "51 bundle line", *line, *kind),
        Cause::BundleVersion { n } => push_one(text, "52 bundle version", *n),
        Cause::Boot { class } => push_class(text, "53 boot", class),
        Cause::Narrowed { class, lost } => push_names(text, "54 narrowed", class, lost),
        Cause::KindChanged { class } => push_class(text, "55 kind changed", class),
        Cause::NoSuchMethod { line } => push_one(text, "56 no such method", *line),
        Cause::Transformer { descriptor } => push_class(text, "57 transformer", descriptor),
        Cause::MapPoint { line } => push_one(text, "58 map point", *line),
        Cause::ManifestLine { line, kind } => push_line(text, "71 manifest line", *line, *kind),
        Cause::Later => push_word(text, "72 later"),
        Cause::Image { at } => push_one(text, "81 image", *at),
        Cause::NoPath { part } => push_one(text, "82 no path", *part),
        Cause::ScriptLine { line, kind } => push_line(text, "83 script line", *line, *kind),
    }
}
