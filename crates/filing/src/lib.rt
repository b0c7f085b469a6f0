// A new file under the name that an argument gives: whole, or not at all. Nothing here decides anything of the rules.
#![tactic(auto)]

ghost use Rattle.std.specs.Prelude.{◌≤◌, length};

use std::fs;
use std::fs::{File, OpenOptions};
use std::io::{Error, Write};

// The name is taken, by a file, a folder or a link, wherever the link leads. A name that is too long is not.
fn is_taken(rt: &HostRuntime, path: &[u8]) -> bool {
    match files::name_of(path) {
        Ok(name) => fs::symlink_metadata(rt, name).is_ok(),
        Err(_) => false,
    }
}

// Says what could not be done with a file, and why: errno's text.
fn failed(rt: &HostRuntime, call: &[u8], what: &[u8], path: &[u8], error: Error) {
    files::complain(rt, call);
    files::complain(rt, what);
    files::fail(rt, path, error);
}

// Whether the name that argument k gives is free. One that is not is named on standard error.
pub fn is_free(rt: &HostRuntime, call: &[u8], k: usize) -> bool {
    let mut path = io::buffer();
    let p = files::argument(rt, k, &mut path);
    if is_taken(rt, &path[..p]) {
        files::wrong(
            rt,
            call,
            &path[..p],
            b": the name is taken, and nothing was written\n",
        );
        return false;
    }
    true
}

// Makes an empty file, open for writing. It fails where the name is taken.
fn create(rt: &HostRuntime, path: &[u8]) -> Result<File, Error> {
    let name = files::name_of(path)?;
    OpenOptions::new()
        .write(true)
        .create_new(true)
        .open(rt, name)
}

// Takes a file away.
fn remove(rt: &HostRuntime, path: &[u8]) {
    if let Ok(name) = files::name_of(path) {
        let _ = fs::remove_file(rt, name);
    }
}

// All the bytes, as far as the device.
fn put_out(file: &mut File, bytes: &[u8]) -> Result<(), Error> {
    file.write_all(bytes)?;
    file.sync_all()
}

// Makes a file that holds the bytes. If that fails it says so, and there is no file.
fn make(rt: &HostRuntime, call: &[u8], path: &[u8], bytes: &[u8]) -> bool {
    match create(rt, path) {
        Ok(mut file) => {
            if let Err(error) = put_out(&mut file, bytes) {
                failed(rt, call, b": cannot write ", path, error);
                remove(rt, path);
                return false;
            }
            true
        }
        Err(error) => {
            failed(rt, call, b": cannot make ", path, error);
            false
        }
    }
}

// Gives the file at `part` the name `path`.
fn rename(rt: &HostRuntime, part: &[u8], path: &[u8]) -> Result<(), Error> {
    fs::rename(rt, files::name_of(part)?, files::name_of(path)?)
}

// Gives the file at `part` the name `path`, which is made first, so that no other file loses it. If that fails it says so, and both are gone.
fn rename_to_new(rt: &HostRuntime, call: &[u8], part: &[u8], path: &[u8]) -> bool {
    if let Err(error) = create(rt, path) {
        failed(rt, call, b": cannot make ", path, error);
        remove(rt, part);
        return false;
    }
    if let Err(error) = rename(rt, part, path) {
        failed(rt, call, b": cannot make ", path, error);
        remove(rt, part);
        remove(rt, path);
        return false;
    }
    true
}

// Puts the bytes into a new file under the name that argument k gives. They are written beside it, with `.part` behind the name, and get the name when
// they are whole.
pub fn put_new(rt: &HostRuntime, call: &[u8], k: usize, bytes: &[u8]) -> bool {
    let mut path = io::buffer();
    let p = files::argument(rt, k, &mut path);
    let mut part = [0u8; 4101];
    let n = text::put(&mut part, 0, &path[..p]);
    let n = text::put(&mut part, n, b".part");
    if !make(rt, call, &part[..n], bytes) {
        return false;
    }
    rename_to_new(rt, call, &part[..n], &path[..p])
}
