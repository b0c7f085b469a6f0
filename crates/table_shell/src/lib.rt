// What the desk does with a table's text: read, have the table made, put it on file, print. Nothing here decides anything of the rules. A file is
// written by `put_on_file` alone, which is lent the text that was read and the image of its table.
#![tactic(auto)]

ghost use Rattle.std.specs.Prelude.{◌≡◌};
ghost use Rattle.table_made.specs.Made.{made};
ghost use Rattle.table_shell.specs.Filed.{image_in};

use table_made::Fault;

// Puts the image of the table that a text is on file, and no other bytes.
fn put_on_file(rt: &HostRuntime, text: &[u8], image: &[u8], name: usize) -> bool
    requires { image.now ≡ image_in text.now }
{
    filing::put_new(rt, b"desk make TEXT TABLE", name, image)
}

// Says what a text is: on standard error where it is none.
fn tell(rt: &HostRuntime, text: &[u8], answer: Result<u64, Fault>)
    requires { answer ≡ made text.now 4032 }
{
    let mut room = [0u8; 512];
    let end = table_said::make(text, answer, &mut room);
    if table_said::is_answer(answer) {
        table_printing::say_make(rt, text, &room[..end]);
        return;
    }
    table_printing::blame(rt, text, &room[..end]);
}

// Makes the table of a text under the name that an argument gives. The writer checks the table once more: one that it refuses is not put on file.
fn make_table(rt: &HostRuntime, text: &[u8], name: usize) {
    let mut table = [0u64; 4032];
    let answer = table_made::make(text, &mut table);
    let Ok(n) = answer else {
        tell(rt, text, answer);
        return;
    };
    let end = 63 * n as usize;
    let mut image = [0u8; 32768];
    let written = image_write::write(&table[..end], &mut image);
    let Ok(k) = written else {
        files::complain(
            rt,
            b"desk make TEXT TABLE: the table is not sound, and nothing was written\n",
        );
        return;
    };
    let end = 512 * (k as usize);
    if put_on_file(rt, text, &image[..end], name) {
        tell(rt, text, answer);
    }
}

// Room for every text that `desk show` prints, and for some comments.
fn empty() -> [u8; 786432] {
    [0u8; 786432]
}

// desk make TEXT TABLE, where TEXT and TABLE are the numbers of arguments
pub fn make_of(rt: &HostRuntime, words: usize, name: usize) {
    let mut text = empty();
    let whole = files::fetch(rt, b"desk make TEXT TABLE", words, &mut text);
    let Some(n) = whole else {
        return;
    };
    let text = &text[..n];
    if filing::is_free(rt, b"desk make TEXT TABLE", name) {
        make_table(rt, text, name);
    }
}
