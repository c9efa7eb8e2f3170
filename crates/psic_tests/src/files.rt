// Real files.
ghost use Rattle.std.specs.Prelude.{◌≤◌, length};
ghost use Rattle.psi_edges.specs.Limits.{longest_name};

use psi_edges::{DiskShelf, Failed, Fetch, Shelf, read_whole};
use std::test::Fail;
use std::{env, fs, process};

/// The path of a file for a test.
fn temporary(rt: &HostRuntime, word: &str) -> Result<String, Fail> {
    let folder = env::temp_dir(rt)?;
    let path = format!(in rt.alloc();
        "{}/psic_tests_{}_{}",
        folder.display(),
        process::id(rt.process()),
        word
    )?;
    Ok(path)
}

#[test]
fn a_real_file_is_read_whole(rt: HostRuntime) -> Result<(), Fail> {
    let path = temporary(&rt, "whole")?;
    assert!(rt; path.len() <= 4096);
    let long = vec![in rt.alloc(); 7u8; 5000]?;
    fs::write(&rt, path.as_str(), long.as_slice())?;
    let mut shelf = DiskShelf::new(&rt);
    let bytes = read_whole(rt.alloc(), &mut shelf, &path, 5000);
    let too_long = read_whole(rt.alloc(), &mut shelf, &path, 4999);
    fs::remove_file(&rt, path.as_str())?;
    let missing = read_whole(rt.alloc(), &mut DiskShelf::new(&rt), &path, 5000);
    let folder = read_whole(rt.alloc(), &mut shelf, ".", 5000);
    assert_eq!(rt; bytes?.as_slice(), long.as_slice());
    assert!(rt; matches!(too_long, Err(Fetch::TooLong)));
    assert!(rt; matches!(missing, Err(Fetch::Fault)));
    assert!(rt; matches!(folder, Err(Fetch::Fault)));
    Ok(())
}

/// Whether a `take` with room for four bytes gives these bytes.
fn gives<F: Shelf>(shelf: &mut F, name: &str, at: u32, bytes: &[u8]) -> bool
    requires { length name.now ≤ longest_name }
{
    let mut into = [0u8; 4];
    match shelf.take(name, at.into(), &mut into) {
        Ok(count) => &into[..count] == bytes,
        Err(Failed) => false,
    }
}

#[test]
fn a_real_file_is_opened_once(rt: HostRuntime) -> Result<(), Fail> {
    let path = temporary(&rt, "once")?;
    assert!(rt; path.len() <= 4096);
    fs::write(&rt, path.as_str(), "0123456789")?;
    let mut shelf = DiskShelf::new(&rt);
    assert!(rt; gives(&mut shelf, &path, 0, b"0123"));
    // What is removed can be read on, and cannot be opened again.
    fs::remove_file(&rt, path.as_str())?;
    assert!(rt; gives(&mut shelf, &path, 4, b"4567") && gives(&mut shelf, &path, 8, b"89"));
    assert!(rt; gives(&mut shelf, &path, 10, b"") && gives(&mut shelf, &path, 3, b"3456"));
    assert!(rt; !gives(&mut shelf, "no such file", 0, b""));
    assert!(rt; !gives(&mut shelf, &path, 0, b"0123"));
    Ok(())
}
