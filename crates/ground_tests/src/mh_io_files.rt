use mh_io::mh_units::Bytes;
use mh_io::{Folder, PutFault, RealFolder, RealSink, put_all, read_all};
use std::fs;
use std::process::Abort;

/// What a file has, found and read whole.
fn text_of<F: Folder>(rt: &(impl Abort + AllocGlobal), folder: &mut F, name: &str) -> Bytes {
    let mut source = folder.find(rt.alloc(), name).ok().expect(rt, "the file");
    let read = read_all(rt.alloc(), &mut source);
    folder.done(source);
    read.ok().expect(rt, "its bytes")
}

#[test]
fn a_real_file_is_written_and_read(rt: HostRuntime) {
    let name = "ground_tests_real_file";
    let file = fs::create(&rt, name).ok().expect(&rt, "a file");
    let mut sink = RealSink::new(file);
    assert!(rt; put_all(&mut sink, b"a line\nand one more").is_ok());
    let mut folder = RealFolder::new(rt.clone().ok().expect(&rt, "a runtime"));
    let text = text_of(&rt, &mut folder, name);
    assert!(rt; text.as_slice() == b"a line\nand one more".as_slice());
    assert!(rt; fs::remove_file(&rt, name).is_ok());
}

// A file that was opened to be read takes no bytes.
#[test]
fn a_read_file_takes_no_bytes(rt: HostRuntime) {
    let name = "ground_tests_read_file";
    assert!(rt; fs::write(&rt, name, "text").is_ok());
    let file = fs::open(&rt, name).ok().expect(&rt, "a file");
    let mut closed = RealSink::new(file);
    assert!(rt; put_all(&mut closed, b"more") == Err(PutFault { put: 0 }));
    assert!(rt; fs::remove_file(&rt, name).is_ok());
}
