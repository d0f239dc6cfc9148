use super::*;
use jv_types::{Attr, ClassData, Const, List, Member, NoMemory, What};
use std::alloc::Global;
use std::test::Fail;

/// A list of so many zeros.
fn zeros(alloc: Global, count: u32) -> Result<List<u16>, NoMemory> {
    let mut list = List::new(alloc);
    for _ in 0..count {
        list.push(0)?;
    }
    Ok(list)
}

fn empty_class(alloc: Global) -> ClassData {
    ClassData {
        minor: 0,
        major: 52,
        pool: List::new(alloc),
        flags: 0,
        this_class: 0,
        super_class: 0,
        interfaces: List::new(alloc),
        fields: List::new(alloc),
        methods: List::new(alloc),
        attributes: List::new(alloc),
    }
}

fn error_of(alloc: Global, file: &ClassData) -> Option<WriteClassError> {
    write_class(alloc, file).err()
}

/// As the page of this crate has it.
#[test]
fn how_to_call_it(rt: HostRuntime) -> Result<(), Fail> {
    let mut file = empty_class(rt.alloc());
    file.interfaces.push(0x0102)?;
    let bytes = write_class(rt.alloc(), &file)?;
    assert_eq!(rt; bytes.len(), 26);
    Ok(())
}

#[test]
fn each_kind_of_constant(rt: HostRuntime) -> Result<(), Fail> {
    let mut file = empty_class(rt.alloc());
    let units = [0, 0x7f, 0x80, 0x7ff, 0x800, 0xd83d];
    file.pool = List::from_vec(vec![in rt.alloc();
        Const::Gap,
        Const::Utf8(List::from_slice(rt.alloc(), &units)?),
        Const::Integer(-2),
        Const::Float(0x3f80_0000),
        Const::Long(-3),
        Const::Gap,
        Const::Double(0x3ff0_0000_0000_0001),
        Const::Gap,
        Const::Class(0x0102),
        Const::String(0x0102),
        Const::Fieldref(0x0102, 0x0304),
        Const::Methodref(0x0102, 0x0304),
        Const::InterfaceMethodref(0x0102, 0x0304),
        Const::NameAndType(0x0102, 0x0304),
        Const::MethodHandle(9, 0x0102),
        Const::MethodType(0x0102),
        Const::InvokeDynamic(0x0102, 0x0304),
    ]?)?;
    let bytes = write_class(rt.alloc(), &file)?;
    let wanted = b"\xca\xfe\xba\xbe\0\0\0\x34\0\x11\
        \x01\0\x0d\xc0\x80\x7f\xc2\x80\xdf\xbf\xe0\xa0\x80\xed\xa0\xbd\
        \x03\xff\xff\xff\xfe\x04\x3f\x80\0\0\
        \x05\xff\xff\xff\xff\xff\xff\xff\xfd\x06\x3f\xf0\0\0\0\0\0\x01\
        \x07\x01\x02\x08\x01\x02\
        \x09\x01\x02\x03\x04\x0a\x01\x02\x03\x04\x0b\x01\x02\x03\x04\x0c\x01\x02\x03\x04\
        \x0f\x09\x01\x02\x10\x01\x02\x12\x01\x02\x03\x04\
        \0\0\0\0\0\0\0\0\0\0\0\0\0\0";
    assert_eq!(rt; bytes.as_slice(), wanted.as_slice());
    Ok(())
}

#[test]
fn members_and_attributes(rt: HostRuntime) -> Result<(), Fail> {
    let mut file = empty_class(rt.alloc());
    file.flags = 0x21;
    file.this_class = 0x0102;
    file.super_class = 3;
    file.interfaces = List::from_slice(rt.alloc(), &[4, 0x0105])?;
    let value = Attr {
        name: 9,
        bytes: List::from_slice(rt.alloc(), b"ab")?,
    };
    let field = Member {
        flags: 6,
        name: 7,
        descriptor: 8,
        attributes: List::from_vec(vec![in rt.alloc(); value]?)?,
    };
    file.fields = List::from_vec(vec![in rt.alloc(); field]?)?;
    let method = Member {
        flags: 0x0101,
        name: 10,
        descriptor: 11,
        attributes: List::new(rt.alloc()),
    };
    file.methods = List::from_vec(vec![in rt.alloc(); method]?)?;
    let marker = Attr {
        name: 12,
        bytes: List::new(rt.alloc()),
    };
    file.attributes = List::from_vec(vec![in rt.alloc(); marker]?)?;
    let bytes = write_class(rt.alloc(), &file)?;
    let wanted = b"\xca\xfe\xba\xbe\0\0\0\x34\0\0\0\x21\x01\x02\0\x03\
        \0\x02\0\x04\x01\x05\
        \0\x01\0\x06\0\x07\0\x08\0\x01\0\x09\0\0\0\x02ab\
        \0\x01\x01\x01\0\x0a\0\x0b\0\0\
        \0\x01\0\x0c\0\0\0\0";
    assert_eq!(rt; bytes.as_slice(), wanted.as_slice());
    Ok(())
}

#[test]
fn the_longest_list(rt: HostRuntime) -> Result<(), Fail> {
    let mut file = empty_class(rt.alloc());
    file.interfaces = zeros(rt.alloc(), 65_535)?;
    let bytes = write_class(rt.alloc(), &file)?;
    assert_eq!(rt; bytes.len(), 131_094);
    file.interfaces.push(0)?;
    let limit = WriteClassError::Limit {
        what: What::Interfaces,
        n: 65_536,
    };
    assert_eq!(rt; error_of(rt.alloc(), &file), Some(limit));
    Ok(())
}

/// Each of its units takes two bytes. It stands before the interfaces.
#[test]
fn a_long_text(rt: HostRuntime) -> Result<(), Fail> {
    let mut file = empty_class(rt.alloc());
    file.pool.push(Const::Gap)?;
    file.pool.push(Const::Utf8(zeros(rt.alloc(), 32_768)?))?;
    file.interfaces = zeros(rt.alloc(), 65_536)?;
    let limit = WriteClassError::Limit {
        what: What::Utf8,
        n: 65_536,
    };
    assert_eq!(rt; error_of(rt.alloc(), &file), Some(limit));
    Ok(())
}
