// The desk's calls on lists of calls: which answer a call asks for.

// A call in two words. Answers whether there is such a call, as do the next three.
fn of_two(rt: &HostRuntime, word: &[u8]) -> bool {
    if check::same(word, b"list") {
        list_shell::list_of(rt, 2);
        return true;
    }
    false
}

// A call in three words.
fn of_three(rt: &HostRuntime, word: &[u8]) -> bool {
    if check::same(word, b"calls") {
        calls_shell::calls_of(rt, 2, 3);
        return true;
    }
    if check::same(word, b"same") {
        list_shell::same_of(rt, 2, 3);
        return true;
    }
    false
}

// A call in four words.
fn of_four(rt: &HostRuntime, word: &[u8]) -> bool {
    if check::same(word, b"run") {
        run_shell::run_of(rt, 2, 3, 4);
        return true;
    }
    if check::same(word, b"missing") {
        missing_shell::missing_of(rt, 2, 3, 4);
        return true;
    }
    false
}

// A call in n words, the first of which is given.
pub fn asked(rt: &HostRuntime, word: &[u8], n: usize) -> bool {
    if n == 2 {
        return of_two(rt, word);
    }
    if n == 3 {
        return of_three(rt, word);
    }
    if n == 4 {
        return of_four(rt, word);
    }
    false
}
