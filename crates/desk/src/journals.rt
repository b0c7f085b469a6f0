// The desk's calls on journals: which answer a call asks for.

// A call in n words, the first of which is given. Answers whether there is such a call.
pub fn asked(rt: &HostRuntime, word: &[u8], n: usize) -> bool {
    if n == 2 {
        if check::same(word, b"journal") {
            journal_shell::check_of(rt, 2);
            return true;
        }
        return false;
    }
    if n == 3 {
        if check::same(word, b"keep") {
            keep_shell::keep_of(rt, 2, 3);
            return true;
        }
        return false;
    }
    if n == 4 {
        if check::same(word, b"replay") {
            journal_shell::replay_of(rt, 2, 3, 4);
            return true;
        }
        return false;
    }
    false
}
