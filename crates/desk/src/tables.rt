// The desk's calls on tables: which answer a call asks for.

// A call in two words. Answers whether there is such a call, as do the next two.
fn of_two(rt: &HostRuntime, word: &[u8]) -> bool {
    if check::same(word, b"show") {
        show_shell::show_of(rt, 2);
        return true;
    }
    if check::same(word, b"check") {
        shell::check(rt, 2);
        return true;
    }
    if check::same(word, b"risk") {
        show_shell::risk_of(rt, 2);
        return true;
    }
    false
}

// A call in three words.
fn of_three(rt: &HostRuntime, word: &[u8]) -> bool {
    if check::same(word, b"make") {
        table_shell::make_of(rt, 2, 3);
        return true;
    }
    if check::same(word, b"verdict") {
        shell::verdict_of(rt, 2, 3);
        return true;
    }
    false
}

// A call in n words, the first of which is given.
pub fn asked(rt: &HostRuntime, word: &[u8], n: usize) -> bool {
    if n == 2 {
        return of_two(rt, word);
    }
    if n == 3 {
        return of_three(rt, word);
    }
    false
}
