//! Texts that are read and written over memory.

use outside_io::{MemInputs, MemSink, NamedText, ReadError, read_whole, write_all};
use std::alloc::{AllocError, Global};
use std::test::Fail;

fn one_text(alloc: Global, fails: &[u64]) -> Result<MemInputs, AllocError> {
    let name = String::from_str(alloc, "map")?;
    let text = b"hello".to_vec(alloc)?;
    let mut texts = Vec::new(alloc);
    texts.push(NamedText::new(name, text))?;
    Ok(MemInputs::new(texts, 2, fails.to_vec(alloc)?))
}

#[test]
fn a_text_is_read_whole(rt: HostRuntime) -> Result<(), Fail> {
    let alloc = rt.alloc();
    let mut inputs = one_text(alloc, &[])?;
    let bytes = read_whole(alloc, &mut inputs, "map", 5)?;
    assert_eq!(rt; bytes.as_slice(), b"hello".as_slice());
    assert!(rt;
        matches!(
            read_whole(alloc, &mut inputs, "map", 4),
            Err(ReadError::TooLong)
        )
    );
    assert!(rt;
        matches!(
            read_whole(alloc, &mut inputs, "town", 5),
            Err(ReadError::Fault)
        )
    );
    Ok(())
}

#[test]
fn a_failed_read_is_a_fault(rt: HostRuntime) -> Result<(), Fail> {
    let alloc = rt.alloc();
    // The call before, the begin, succeeds.
    let mut inputs = one_text(alloc, &[1])?;
    assert!(rt;
        matches!(
            read_whole(alloc, &mut inputs, "map", 5),
            Err(ReadError::Fault)
        )
    );
    let bytes = read_whole(alloc, &mut inputs, "map", 5)?;
    assert_eq!(rt; bytes.as_slice(), b"hello".as_slice());
    Ok(())
}

#[test]
fn bytes_are_written_until_a_failure(rt: HostRuntime) -> Result<(), Fail> {
    let alloc = rt.alloc();
    let mut sink = MemSink::new(alloc, 16, 2, [4].to_vec(alloc)?)?;
    assert!(rt; write_all(&mut sink, b"hello").is_ok());
    assert_eq!(rt; sink.written(), b"hello".as_slice());
    assert!(rt; write_all(&mut sink, b"world").is_err());
    assert_eq!(rt; sink.written(), b"hellowo".as_slice());
    Ok(())
}

#[test]
fn a_full_sink_fails(rt: HostRuntime) -> Result<(), Fail> {
    let alloc = rt.alloc();
    let mut sink = MemSink::new(alloc, 3, 8, Vec::new(alloc))?;
    assert!(rt; write_all(&mut sink, b"hello").is_err());
    assert_eq!(rt; sink.written(), b"hel".as_slice());
    assert!(rt; write_all(&mut sink, b"").is_ok());
    Ok(())
}
