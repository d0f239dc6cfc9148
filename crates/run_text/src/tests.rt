//! What no clause says: that the words are those that a user reads, and that each call succeeds.

use super::*;
use jv_types::text::units;
use jv_types::{Bytes, Cause, Entry, LineKind, List, NoMemory, Rule, Status, Text, ThreadNo, What};
use std::alloc::Global;
use std::test::Fail;

fn run(thread: u32, steps: u32) -> Entry {
    Entry::Run {
        thread: ThreadNo(thread),
        steps,
    }
}

/// Whether a text is read as these entries and this bad line.
fn reads(alloc: Global, text: &[u8], entries: &[Entry], bad: Option<u64>) -> bool {
    match read_journal(alloc, text) {
        Ok(read) => read.entries.as_slice() == entries && read.bad == bad,
        Err(NoMemory) => false,
    }
}

/// Whether these bytes were made.
fn is_text(made: Result<Bytes, NoMemory>, text: &[u8]) -> bool {
    match made {
        Ok(bytes) => bytes.as_slice() == text,
        Err(NoMemory) => false,
    }
}

#[test]
fn journals_are_read(rt: HostRuntime) -> Result<(), Fail> {
    let alloc = rt.alloc();
    let entries = [run(0, 1), run(63, 4096), Entry::Attempt, run(10, 20)];
    let text = b"run 0 1\nrun 63 4096\nattempt\nrun 10 20\nend\n";
    assert!(rt; reads(alloc, text, &entries, None));
    assert!(rt; reads(alloc, b"end\n", &[], None));
    let list = List::from_slice(alloc, &entries)?;
    assert!(rt; is_text(journal_text(alloc, &list), text));
    Ok(())
}

#[test]
fn a_line_that_is_missing_or_too_many_is_told(rt: HostRuntime) {
    let first = [run(5, 6)];
    let texts: [(&[u8], &[Entry], u64); 8] = [
        (b"", &[], 0),
        (b"run 5 6\n", &first, 1),
        (b"end\nend\n", &[], 1),
        (b"run 5 6\nend\n\n", &first, 2),
        (b"run 5 6\nend\nx", &first, 2),
        (b"run 5 6\nend", &first, 1),
        (b"run 5 6", &[], 0),
        (b"run 5 6\nrun 5 6x\nrun 5 6\nend\n", &first, 1),
    ];
    for (text, entries, bad) in texts {
        assert!(rt; reads(rt.alloc(), text, entries, Some(bad)));
    }
}

#[test]
fn lines_outside_the_grammar_are_told(rt: HostRuntime) {
    let lines: [&[u8]; 27] = [
        b"\n",
        b" \n",
        b"run\n",
        b"run 1\n",
        b"run 1 2 3\n",
        b"run 1 2 \n",
        b" run 1 2\n",
        b"run  1 2\n",
        b"run 1  2\n",
        b"run 1 2\r\n",
        b"run\t1 2\n",
        b"Run 1 2\n",
        b"runs 1 2\n",
        b"run 64 2\n",
        b"run 1 0\n",
        b"run 1 4097\n",
        b"run 00 2\n",
        b"run 1 02\n",
        b"run +1 2\n",
        b"run -1 2\n",
        b"run 1 2.\n",
        b"run a 2\n",
        b"run 4294967296 2\n",
        b"run 1 18446744073709551617\n",
        b"attempt 1\n",
        b"attempts\n",
        b"run 1 \xff\n",
    ];
    for line in lines {
        assert!(rt; reads(rt.alloc(), line, &[], Some(0)));
    }
}

/// Whether a status has this number and this line.
fn tells(alloc: Global, status: &Status, number: u8, line: &str) -> bool {
    exit_status(status) == number && is_text(status_line(alloc, status), line.as_bytes())
}

#[test]
fn statuses_without_fields_are_told(rt: HostRuntime) {
    let alloc = rt.alloc();
    assert!(rt; tells(alloc, &Status::Finished, 0, "jvolve: 0 finished\n"));
    assert!(rt; tells(alloc, &Status::BadWords, 2, "jvolve: 2 bad words\n"));
    assert!(rt; tells(alloc, &Status::ReadFault, 4, "jvolve: 4 read fault\n"));
    assert!(rt; tells(alloc, &Status::WriteFault, 5, "jvolve: 5 write fault\n"));
    assert!(rt; tells(alloc, &Status::NoMemory, 6, "jvolve: 6 no memory\n"));
    assert!(rt; tells(alloc, &Status::Stuck, 9, "jvolve: 9 stuck\n"));
    assert!(rt; tells(alloc, &Status::OutputFull, 10, "jvolve: 10 output full\n"));
    assert!(rt; tells(alloc, &Status::ThreadsFull, 13, "jvolve: 13 threads full\n"));
}

#[test]
fn statuses_with_fields_are_told(rt: HostRuntime) -> Result<(), Fail> {
    let alloc = rt.alloc();
    let thread = ThreadNo(63);
    let class: Text = List::from_slice(alloc, &[0x41, 0xd83d, 0xde00, 0xdc00])?;
    let status = Status::Uncaught { class, thread };
    assert!(rt;
        tells(
            alloc,
            &status,
            1,
            "jvolve: 1 uncaught A\u{1f600}? thread 63\n"
        )
    );
    let status = Status::StepsSpent { n: 90 };
    assert!(rt; tells(alloc, &status, 7, "jvolve: 7 steps spent 90\n"));
    let status = Status::HeapFull {
        asked: 3,
        reach: 1000,
        half: 1001,
    };
    assert!(rt;
        tells(
            alloc,
            &status,
            8,
            "jvolve: 8 heap full asked 3 reach 1000 half 1001\n"
        )
    );
    let status = Status::BadJournal { entry: u64::MAX };
    assert!(rt;
        tells(
            alloc,
            &status,
            11,
            "jvolve: 11 bad journal 18446744073709551615\n"
        )
    );
    let status = Status::StackDeep { thread };
    assert!(rt; tells(alloc, &status, 12, "jvolve: 12 stack deep thread 63\n"));
    Ok(())
}

/// Whether input that is refused so is told in these words.
fn refused(alloc: Global, cause: Cause, line: &str) -> bool {
    let status = Status::BadInput {
        item: 4,
        sub: 1,
        cause,
    };
    tells(alloc, &status, 3, line)
}

/// A name; none where there is no memory for it.
fn name(alloc: Global, name: &str) -> Text {
    units(alloc, name).unwrap_or_else(|_| List::new(alloc))
}

#[test]
fn faults_of_class_files_are_told(rt: HostRuntime) {
    let alloc = rt.alloc();
    assert!(rt;
        refused(
            alloc,
            Cause::Truncated { at: 10 },
            "jvolve: 3 bad input 4 1 1 truncated 10\n"
        )
    );
    assert!(rt; refused(alloc, Cause::Magic, "jvolve: 3 bad input 4 1 2 magic\n"));
    assert!(rt;
        refused(
            alloc,
            Cause::Version { major: 53 },
            "jvolve: 3 bad input 4 1 3 version 53\n"
        )
    );
    assert!(rt;
        refused(
            alloc,
            Cause::Pool { index: 9 },
            "jvolve: 3 bad input 4 1 4 pool 9\n"
        )
    );
    assert!(rt;
        refused(
            alloc,
            Cause::Utf8 { index: 8 },
            "jvolve: 3 bad input 4 1 5 utf8 8\n"
        )
    );
    assert!(rt;
        refused(
            alloc,
            Cause::Attribute { at: 77 },
            "jvolve: 3 bad input 4 1 6 attribute 77\n"
        )
    );
    assert!(rt;
        refused(
            alloc,
            Cause::Extra { at: 4_294_967_295 },
            "jvolve: 3 bad input 4 1 7 extra 4294967295\n"
        )
    );
}

#[test]
fn faults_of_code_are_told(rt: HostRuntime) {
    let alloc = rt.alloc();
    assert!(rt;
        refused(
            alloc,
            Cause::Opcode { method: 2, pc: 30 },
            "jvolve: 3 bad input 4 1 11 opcode 2 30\n"
        )
    );
    assert!(rt;
        refused(
            alloc,
            Cause::Operand { method: 2, pc: 30 },
            "jvolve: 3 bad input 4 1 12 operand 2 30\n"
        )
    );
    assert!(rt;
        refused(
            alloc,
            Cause::Target { method: 2, pc: 30 },
            "jvolve: 3 bad input 4 1 13 target 2 30\n"
        )
    );
    assert!(rt;
        refused(
            alloc,
            Cause::Handler { method: 2, row: 1 },
            "jvolve: 3 bad input 4 1 14 handler 2 1\n"
        )
    );
    assert!(rt;
        refused(
            alloc,
            Cause::MapFrame {
                method: 2,
                index: 0
            },
            "jvolve: 3 bad input 4 1 15 map frame 2 0\n"
        )
    );
    assert!(rt;
        refused(
            alloc,
            Cause::Unsupported { method: 2, pc: 30 },
            "jvolve: 3 bad input 4 1 16 unsupported 2 30\n"
        )
    );
    assert!(rt;
        refused(
            alloc,
            Cause::FrameTooBig {
                method: 2,
                words: 4097
            },
            "jvolve: 3 bad input 4 1 17 frame too big 2 4097\n"
        )
    );
    assert!(rt;
        refused(
            alloc,
            Cause::Shape { method: 2, at: 12 },
            "jvolve: 3 bad input 4 1 18 shape 2 12\n"
        )
    );
}

#[test]
fn faults_of_linking_are_told(rt: HostRuntime) {
    let alloc = rt.alloc();
    assert!(rt;
        refused(
            alloc,
            Cause::Twice {
                class: name(alloc, "a/B")
            },
            "jvolve: 3 bad input 4 1 31 twice a/B\n"
        )
    );
    assert!(rt;
        refused(
            alloc,
            Cause::Cycle {
                class: name(alloc, "a/B")
            },
            "jvolve: 3 bad input 4 1 32 cycle a/B\n"
        )
    );
    assert!(rt;
        refused(
            alloc,
            Cause::Unresolved {
                class: name(alloc, "a/B"),
                index: 5
            },
            "jvolve: 3 bad input 4 1 33 unresolved a/B 5\n"
        )
    );
    assert!(rt;
        refused(
            alloc,
            Cause::FinalOverride {
                class: name(alloc, "a/B")
            },
            "jvolve: 3 bad input 4 1 34 final override a/B\n"
        )
    );
    assert!(rt; refused(alloc, Cause::NoMain, "jvolve: 3 bad input 4 1 35 no main\n"));
    assert!(rt;
        refused(
            alloc,
            Cause::Descriptor {
                class: name(alloc, "a/B"),
                index: 6
            },
            "jvolve: 3 bad input 4 1 36 descriptor a/B 6\n"
        )
    );
    assert!(rt;
        refused(
            alloc,
            Cause::MethodKind {
                class: name(alloc, "a/B"),
                method: 0
            },
            "jvolve: 3 bad input 4 1 37 method kind a/B 0\n"
        )
    );
    assert!(rt;
        refused(
            alloc,
            Cause::Reserved {
                class: name(alloc, "a/B")
            },
            "jvolve: 3 bad input 4 1 38 reserved a/B\n"
        )
    );
}

#[test]
fn faults_of_updates_are_told(rt: HostRuntime) {
    let alloc = rt.alloc();
    assert!(rt;
        refused(
            alloc,
            Cause::BundleVersion { n: 2 },
            "jvolve: 3 bad input 4 1 52 bundle version 2\n"
        )
    );
    assert!(rt;
        refused(
            alloc,
            Cause::Boot {
                class: name(alloc, "a/B")
            },
            "jvolve: 3 bad input 4 1 53 boot a/B\n"
        )
    );
    assert!(rt;
        refused(
            alloc,
            Cause::Narrowed {
                class: name(alloc, "a/B"),
                lost: name(alloc, "C")
            },
            "jvolve: 3 bad input 4 1 54 narrowed a/B C\n"
        )
    );
    assert!(rt;
        refused(
            alloc,
            Cause::KindChanged {
                class: name(alloc, "a/B")
            },
            "jvolve: 3 bad input 4 1 55 kind changed a/B\n"
        )
    );
    assert!(rt;
        refused(
            alloc,
            Cause::NoSuchMethod { line: 9 },
            "jvolve: 3 bad input 4 1 56 no such method 9\n"
        )
    );
    assert!(rt;
        refused(
            alloc,
            Cause::Transformer {
                descriptor: name(alloc, "(LA;)V")
            },
            "jvolve: 3 bad input 4 1 57 transformer (LA;)V\n"
        )
    );
    assert!(rt;
        refused(
            alloc,
            Cause::MapPoint { line: 8 },
            "jvolve: 3 bad input 4 1 58 map point 8\n"
        )
    );
}

#[test]
fn faults_of_other_input_are_told(rt: HostRuntime) {
    let alloc = rt.alloc();
    assert!(rt; refused(alloc, Cause::Later, "jvolve: 3 bad input 4 1 72 later\n"));
    assert!(rt;
        refused(
            alloc,
            Cause::Image { at: 0 },
            "jvolve: 3 bad input 4 1 81 image 0\n"
        )
    );
    assert!(rt;
        refused(
            alloc,
            Cause::NoPath { part: 1 },
            "jvolve: 3 bad input 4 1 82 no path 1\n"
        )
    );
}

#[test]
fn limits_are_told(rt: HostRuntime) -> Result<(), Fail> {
    let alloc = rt.alloc();
    for (what, word) in [
        (What::File, "file"),
        (What::Total, "total"),
        (What::Pool, "pool"),
        (What::Utf8, "utf8"),
        (What::Interfaces, "interfaces"),
        (What::Fields, "fields"),
        (What::Methods, "methods"),
        (What::Attributes, "attributes"),
    ] {
        let line = format!(in alloc; "jvolve: 3 bad input 4 1 8 limit {word} 65537\n")?;
        assert!(rt; refused(alloc, Cause::Limit { what, n: 65_537 }, line.as_str()));
        let line = format!(in alloc; "jvolve: 3 bad input 4 1 21 limit {word} 65536\n")?;
        assert!(rt; refused(alloc, Cause::CountLimit { what, n: 65_536 }, line.as_str()));
    }
    Ok(())
}

#[test]
fn kinds_of_lines_are_told(rt: HostRuntime) -> Result<(), Fail> {
    let alloc = rt.alloc();
    for (kind, word) in [
        (LineKind::Text, "text"),
        (LineKind::Head, "head"),
        (LineKind::Word, "word"),
        (LineKind::Order, "order"),
        (LineKind::Count, "count"),
        (LineKind::Number, "number"),
        (LineKind::Label, "label"),
        (LineKind::Range, "range"),
        (LineKind::Many, "many"),
        (LineKind::Open, "open"),
        (LineKind::Main, "main"),
        (LineKind::Name, "name"),
    ] {
        let line = format!(in alloc; "jvolve: 3 bad input 4 1 71 manifest line 3 {word}\n")?;
        assert!(rt; refused(alloc, Cause::ManifestLine { line: 3, kind }, line.as_str()));
    }
    Ok(())
}

#[test]
fn texts_with_lines_are_told(rt: HostRuntime) {
    let alloc = rt.alloc();
    let kind = LineKind::Count;
    let cause = Cause::AsmLine { line: 3, kind };
    assert!(rt;
        refused(
            alloc,
            cause,
            "jvolve: 3 bad input 4 1 22 asm line 3 count\n"
        )
    );
    let cause = Cause::BundleLine { line: 4, kind };
    assert!(rt;
        refused(
            alloc,
            cause,
            "jvolve: 3 bad input 4 1 51 bundle line 4 count\n"
        )
    );
    let cause = Cause::ScriptLine { line: 5, kind };
    assert!(rt;
        refused(
            alloc,
            cause,
            "jvolve: 3 bad input 4 1 83 script line 5 count\n"
        )
    );
}

#[test]
fn broken_rules_are_told(rt: HostRuntime) -> Result<(), Fail> {
    let alloc = rt.alloc();
    for (rule, word) in [
        (Rule::Map, "map"),
        (Rule::After, "after"),
        (Rule::Handler, "handler"),
        (Rule::Operand, "operand"),
        (Rule::Target, "target"),
        (Rule::End, "end"),
    ] {
        let cause = Cause::NotVerified {
            class: name(alloc, "A"),
            name: name(alloc, "<init>"),
            descriptor: name(alloc, "(I)V"),
            pc: 4,
            rule,
        };
        let line = format!(in alloc;
            "jvolve: 3 bad input 4 1 41 not verified A <init> (I)V 4 {word}\n"
        )?;
        assert!(rt; refused(alloc, cause, line.as_str()));
    }
    Ok(())
}

#[test]
fn units_are_printed(rt: HostRuntime) {
    let cases: [(&[u16], &str); 12] = [
        (&[], ""),
        (
            &[0x41, 0x7f, 0x80, 0x7ff, 0x800],
            "A\u{7f}\u{80}\u{7ff}\u{800}",
        ),
        (&[0xd7ff, 0xe000, 0xffff], "\u{d7ff}\u{e000}\u{ffff}"),
        (&[0xd800, 0xdc00], "\u{10000}"),
        (&[0xdbff, 0xdfff], "\u{10ffff}"),
        (&[0xd83d, 0xde00], "\u{1f600}"),
        (&[0xd800], "?"),
        (&[0xdc00, 0x41], "?A"),
        (&[0x41, 0xdbff], "A?"),
        (&[0xdfff, 0xd800], "??"),
        (&[0xd800, 0xd800, 0xdc00], "?\u{10000}"),
        (&[0xd800, 0xdc00, 0xdc00], "\u{10000}?"),
    ];
    for (units, text) in cases {
        assert!(rt; is_text(printed_units(rt.alloc(), units), text.as_bytes()));
    }
}
