// What the desk does with a text of calls: read, have the list made, put it on file, print. Nothing here decides anything of the rules. A file
// is written by `put_on_file` alone, which is lent the text that was read and its list.
#![tactic(auto)]

ghost use Rattle.std.specs.Prelude.{◌≡◌};
ghost use Rattle.calls_text.specs.Reading.{read_text};

use call_words::Wanted;
use calls_text::Fault;

// Puts the list of a text on file, and no other bytes.
fn put_on_file(rt: &HostRuntime, text: &[u8], list: &[u8], name: usize) -> bool
    requires { list.now ≡ (read_text text.now).bytes }
{
    filing::put_new(rt, b"desk calls TEXT CALLS", name, list)
}

// Says what became of a text, by the reader's answer. Of a fault in it nothing is printed.
fn tell(rt: &HostRuntime, text: &[u8], made: Result<usize, Fault>)
    requires { made ≡ (read_text text.now).answer }
{
    let mut room = [0u8; 512];
    let end = calls_said::made(made, &mut room);
    call_printing::say_made(rt, text, &room[..end]);
}

// Says on standard error which line of a text is wrong, and what was wanted there. A call too many is a refusal, which is printed.
fn complain_of(rt: &HostRuntime, fault: Fault) {
    if fault.wanted == Wanted::Fewer {
        return;
    }
    let mut room = [0u8; 512];
    let end = calls_said::put_fault(&mut room, 0, fault);
    files::complain(rt, &room[..end]);
}

// Makes the list of a text, under the name that an argument gives.
fn make_list(rt: &HostRuntime, text: &[u8], name: usize) {
    let mut list = [0u8; 16384];
    let made = calls_text::make(text, &mut list);
    match made {
        Ok(n) => {
            let list = &list[..n];
            if put_on_file(rt, text, list, name) {
                tell(rt, text, made);
            }
        }
        Err(fault) => {
            complain_of(rt, fault);
            tell(rt, text, made);
        }
    }
}

// Room for every text that `desk list` prints, and for some comments.
fn empty() -> [u8; 524288] {
    [0u8; 524288]
}

// desk calls TEXT CALLS, where TEXT and CALLS are the numbers of arguments
pub fn calls_of(rt: &HostRuntime, words: usize, name: usize) {
    let mut text = empty();
    let whole = files::fetch(rt, b"desk calls TEXT CALLS", words, &mut text);
    let Some(n) = whole else {
        return;
    };
    let text = &text[..n];
    if filing::is_free(rt, b"desk calls TEXT CALLS", name) {
        make_list(rt, text, name);
    }
}
