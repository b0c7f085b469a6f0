// The files and masks that a call of a program names, the answer on standard output, and what is said on standard error when a call cannot be
// answered. Nothing here decides anything of the rules.
#![tactic(auto)]

ghost use Rattle.std.specs.Prelude.{◌≡◌, take, IfOk};
ghost use Rattle.std.specs.Io.KnownBytes.{Consumes};
ghost use Rattle.files.specs.Files.{fetched_bytes};
ghost use Rattle.io.specs.Counts.{IsPrefixLen};

use std::env::Env;
use std::fs::File;
use std::io::{Cursor, Error, Read, Write};

// errno's numbers: of a name that is too long, and of bytes that are no text.
const NAME_TOO_LONG: i32 = 36;

const NO_TEXT: i32 = 84;

// errno's number where nothing failed.
const NO_ERROR: i32 = 0;

// Writes the answer. One that did not get out whole is no answer, and that is said.
pub fn answer(rt: &HostRuntime, text: &[u8]) {
    if let Err(error) = Print::write_all(&rt.stdout(), text) {
        fail(rt, b"the answer could not be written whole", error);
    }
}

// Says what is wrong.
pub fn complain(rt: &HostRuntime, words: &[u8]) {
    let _ = Print::write_all(&rt.stderr(), words);
}

// Where the words of an error end: std writes errno's number behind them.
fn words_end(text: &[u8]) -> usize
    ensures { IsPrefixLen result text.now }
{
    for i in 0..text.len() {
        if text[i] == 0 || text[i..].starts_with(b" (os error ") {
            return i;
        }
    }
    text.len()
}

// Says on a line what failed, and why: errno's text.
pub fn fail(rt: &HostRuntime, what: &[u8], error: Error) {
    let mut said = Cursor::new([0u8; 256]);
    let _ = write!(said, "{error}");
    let said = said.into_inner();
    let end = words_end(&said);
    complain(rt, what);
    complain(rt, b": ");
    complain(rt, &said[..end]);
    complain(rt, b"\n");
}

// Says that a file could not be read, and why: errno's text.
fn unread(rt: &HostRuntime, call: &[u8], path: &[u8], error: Error) {
    complain(rt, call);
    complain(rt, b": cannot read ");
    fail(rt, path, error);
}

// Says of a word what is wrong with it.
pub fn wrong(rt: &HostRuntime, call: &[u8], word: &[u8], what: &[u8]) {
    complain(rt, call);
    complain(rt, b": ");
    complain(rt, word);
    complain(rt, what);
}

// Puts argument k at the start of the room, and answers its length: 0 where it is missing or longer than the room.
pub fn argument(rt: &HostRuntime, k: usize, room: &mut [u8]) -> usize
    ensures { IsPrefixLen result room.new }
{
    rt.arg(k, room).unwrap_or(0)
}

// The name of a file, which is text. To bytes that are none no file is known.
pub fn name_of(path: &[u8]) -> Result<&str, Error>
    ensures { IfOk result (λ name. name.now ≡ path.now) }
{
    str::from_utf8(path).map_err(|_| Error::from_raw_os_error(NO_TEXT))
}

// Opens a file to read it.
fn open(rt: &HostRuntime, path: &[u8]) -> Result<File, Error> {
    File::open(rt, name_of(path)?)
}

// Reads until the room is full, the input ends or a read fails, and answers how many bytes stand at the start of the room then: those that were read.
pub fn read_full<R: Read>(from: &mut R, room: &mut [u8]) -> usize
    ensures count { IsPrefixLen result room.new }
    ensures bytes { Consumes (R.remaining from.old) (R.remaining from.new) (take result room.new) }
{
    let mut done = 0;
    while done < room.len() {
        match from.read(&mut room[done..]) {
            Ok(0) | Err(_) => break,
            Ok(n) => done += n,
        }
    }
    done
}

// Reads an open file to its end, and answers how many bytes it has: `None` where it cannot be used, which has then been said. A file that fills the room is
// longer than any table, list of calls or journal.
fn read_whole(
    rt: &HostRuntime,
    call: &[u8],
    path: &[u8],
    file: &mut File,
    room: &mut [u8],
) -> Option<usize>
    ensures { fetched_bytes result room.new }
{
    let n = read_full(file, room);
    if n == room.len() {
        wrong(
            rt,
            call,
            path,
            b": too long for a table, a list of calls, a journal or a text\n",
        );
        return None;
    }
    let mut more = [0u8; 1];
    match file.read(&mut more) {
        Ok(0) => Some(n),
        Ok(_) => {
            unread(rt, call, path, Error::from_raw_os_error(NO_ERROR));
            None
        }
        Err(error) => {
            unread(rt, call, path, error);
            None
        }
    }
}

// Reads the file that argument k names into the room, and answers how many bytes it has: `None` where it cannot be used, which has then been said.
pub fn fetch(rt: &HostRuntime, call: &[u8], k: usize, room: &mut [u8]) -> Option<usize>
    ensures { fetched_bytes result room.new }
{
    let mut path = io::buffer();
    let Ok(p) = rt.arg(k, &mut path) else {
        let error = Error::from_raw_os_error(NAME_TOO_LONG);
        unread(rt, call, b"a file with so long a name", error);
        return None;
    };
    match open(rt, &path[..p]) {
        Ok(mut file) => read_whole(rt, call, &path[..p], &mut file, room),
        Err(error) => {
            unread(rt, call, &path[..p], error);
            None
        }
    }
}

// The faulty sites that argument k names: `None` where it names none, which has then been said.
pub fn faulty(rt: &HostRuntime, call: &[u8], k: usize) -> Option<u64> {
    let mut word = io::buffer();
    let n = argument(rt, k, &mut word);
    let typed = faulty_sites::faulty_typed(&word[..n]);
    if typed.is_none() {
        wrong(
            rt,
            call,
            &word[..n],
            b": FAULTY is 1 to 16 hexadecimal digits, or sites below 64 behind an s, each once, as in s3,12\n",
        );
    }
    typed
}
