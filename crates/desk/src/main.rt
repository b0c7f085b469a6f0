// The desk program: a call in words, the answer on standard output, what is wrong with the call on standard error. Argument 0 is the program's name, 1 the
// call's first word, 2, 3 and 4 are those behind it.
#![tactic(auto)]

mod calls;
mod journals;
mod tables;

use std::env::{Env, FillError};

// No call has more than four words behind the program's name: a fifth makes it wrong, and any behind that do not change how.
const MOST: usize = 6;

// A call in n words, by its first word: one subject after the other. Answers whether there is such a call.
fn asked(rt: &HostRuntime, word: &[u8], n: usize) -> bool {
    if tables::asked(rt, word, n) {
        return true;
    }
    if calls::asked(rt, word, n) {
        return true;
    }
    journals::asked(rt, word, n)
}

// Whether the word asks for the usage.
fn asks_for_help(word: &[u8]) -> bool {
    if check::same(word, b"--help") {
        return true;
    }
    check::same(word, b"-h")
}

// What is said of n words that are no call.
fn wrong(rt: &HostRuntime, word: &[u8], n: usize) {
    if n == 1 {
        if asks_for_help(word) {
            usage::usage(rt);
            return;
        }
    }
    if !usage::words(rt, word) {
        files::complain(
            rt,
            b"desk: no such call; desk alone, without a word behind it, says which there are\n",
        );
    }
}

// How many arguments there are, the program's name among them; or as many as are looked for, where there are more.
fn argument_count(rt: &HostRuntime) -> usize {
    let mut word = [0u8; 1];
    for i in 0..MOST {
        if let Err(FillError::NotPresent) = rt.arg(i, &mut word) {
            return i;
        }
    }
    MOST
}

fn main(rt: HostRuntime) {
    let rt = &rt;
    let arguments = argument_count(rt);
    if arguments < 2 {
        usage::usage(rt);
        return;
    }
    let n = arguments - 1;
    let mut word = io::buffer();
    let k = files::argument(rt, 1, &mut word);
    if !asked(rt, &word[..k], n) {
        wrong(rt, &word[..k], n);
    }
}
