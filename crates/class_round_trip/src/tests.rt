//! What no clause says: that the calls succeed with memory to spare, and where cut files end.

use super::*;
use class_laws::{class_is_read, counts_fit, one_spelling, refused_is_unspelled};
use class_reader::{ClassError, read_class};
use class_samples::{ADD, RETURN};
use class_writer::write_class;
use std::alloc::Global;
use std::test::Fail;

#[test]
fn bytes_come_back(rt: HostRuntime) -> Result<(), Fail> {
    for file in [RETURN.as_slice(), ADD.as_slice()] {
        assert_eq!(rt; written_again(rt.alloc(), file)?.as_slice(), file);
    }
    // The laws under it, which do nothing.
    one_spelling();
    class_is_read();
    counts_fit();
    refused_is_unspelled();
    Ok(())
}

#[test]
fn data_come_back(rt: HostRuntime) -> Result<(), Fail> {
    let file = read_class(rt.alloc(), &ADD)?;
    let again = read_again(rt.alloc(), &file)?;
    assert_eq!(rt; write_class(rt.alloc(), &again)?.as_slice(), ADD.as_slice());
    Ok(())
}

/// The place at which the first bytes of `ADD` are told to be cut.
fn place_of_cut(alloc: Global, count: usize) -> Option<u32> {
    match written_again(alloc, &ADD[..ADD.len().min(count)]) {
        Err(RoundTripError::Read(ClassError::Truncated { at })) => Some(at),
        _ => None,
    }
}

#[test]
fn each_cut_is_told(rt: HostRuntime) {
    for count in 0..251usize {
        let at = place_of_cut(rt.alloc(), count);
        assert!(rt; at.is_some_and(|at| at as usize <= count), "at {count}");
    }
    // The item that is cut is the magic number, the count of the pool, the name of the attribute
    // and its length, its contents, and the count of the last attributes.
    for (count, at) in [
        (0, 0),
        (3, 0),
        (4, 4),
        (7, 6),
        (8, 8),
        (9, 8),
        (225, 222),
        (248, 226),
        (249, 249),
        (250, 249),
    ] {
        assert_eq!(rt; place_of_cut(rt.alloc(), count), Some(at), "at {count}");
    }
}

#[test]
fn a_byte_more_is_told(rt: HostRuntime) -> Result<(), Fail> {
    let mut longer = ADD.to_vec(rt.alloc())?;
    longer.push(0)?;
    let error = RoundTripError::Read(ClassError::Extra { at: 251 });
    assert_eq!(rt; written_again(rt.alloc(), &longer).err(), Some(error));
    Ok(())
}
