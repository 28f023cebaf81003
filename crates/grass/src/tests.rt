// Each adapter once.
use crate::files::FileInputs;
use crate::output::WriterSink;
use gh_base::outside::{Failed, Inputs};
use gh_base::reading::{InputError, read_input};
use gh_base::writing::write_all;
use std::alloc::{AllocError, Global};
use std::fs;
use std::test::Fail;

#[test]
fn absent_files_and_folders(rt: HostRuntime) -> Result<(), Fail> {
    let mut inputs = FileInputs::new(&rt);
    let mut piece = [0u8; 4];
    assert!(rt; inputs.read(&mut piece) == Ok(0));
    assert!(rt; inputs.begin("no such file") == Ok(false));
    assert!(rt; inputs.begin("/dev/null/below") == Err(Failed));
    assert!(rt; inputs.read(&mut piece) == Ok(0));
    assert!(rt; inputs.begin(".") == Ok(true));
    assert!(rt; inputs.read(&mut piece) == Err(Failed));
    Ok(())
}

// A text of so many bytes, each of which tells its place.
fn long_text(alloc: Global, length: usize) -> Result<Vec<u8>, AllocError> {
    let mut text = Vec::with_capacity(alloc, length)?;
    for place in 0..length {
        text.push((place % 251) as u8)?;
    }
    Ok(text)
}

#[test]
fn a_file_of_several_pieces(rt: HostRuntime) -> Result<(), Fail> {
    let name = "/tmp/grass_adapter_test";
    let text = long_text(rt.alloc(), 10_000)?;
    fs::write(&rt, name, text.as_slice())?;
    let mut inputs = FileInputs::new(&rt);
    let read = read_input(rt.alloc(), &mut inputs, name, 10_000)?;
    assert!(rt; read.bytes() == text.as_slice());
    let longer = read_input(rt.alloc(), &mut inputs, name, 9_999);
    assert!(rt; matches!(&longer, Err(InputError::TooLong)));
    fs::remove_file(&rt, name)?;
    Ok(())
}

#[test]
fn written_text(rt: HostRuntime) -> Result<(), AllocError> {
    let mut written = Vec::new(rt.alloc());
    let mut out = WriterSink::new(&mut written);
    assert!(rt; write_all(&mut out, b"verified").is_ok());
    assert!(rt; write_all(&mut out, b": 1 of 1 valid").is_ok());
    assert!(rt; written.as_slice() == b"verified: 1 of 1 valid".as_slice());
    Ok(())
}
