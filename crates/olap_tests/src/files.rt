// The library of real files reads what was written to a file, and refuses a name that isn't there.
use olap_base::Refusal;
use olap_files::FileLibrary;
use olap_outside::{FetchFault, fetch};
use std::fs;
use std::test::Fail;

#[test]
fn a_file_is_read_as_it_was_written(rt: HostRuntime) -> Result<(), Fail> {
    let alloc = rt.alloc();
    let text = b"member,value\na,5\n".as_slice();
    fs::write(&rt, "facts.csv", text)?;
    let mut library = FileLibrary::new(&rt);
    let read = fetch(alloc, &mut library, "facts.csv", 1000);
    assert!(rt; read.is_ok_and(|bytes| bytes.as_slice() == text));
    let longer = fetch(alloc, &mut library, "facts.csv", 16);
    assert!(rt; longer.is_err_and(|e| e == Refusal::Kind(FetchFault::TooLong)));
    let missing = fetch(alloc, &mut library, "nosuch.csv", 1000);
    assert!(rt; missing.is_err_and(|e| e == Refusal::Kind(FetchFault::Missing)));
    Ok(())
}
