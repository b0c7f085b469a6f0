// What the desk can be asked, a line for each call.
#![tactic(auto)]

// Says it on standard output.
pub fn usage(rt: &HostRuntime) {
    files::answer(
        rt,
        b"desk make TEXT TABLE                makes a table, as a new file, of a text in which a person wrote it
desk show TABLE                     the table as such a text
desk check TABLE                    is the table sound?
desk verdict TABLE FAULTY           which sites can be relied on when the sites of FAULTY are faulty?
desk risk TABLE                     how many sites does each take with it, and how few broken ones leave none to rely on?
desk calls TEXT CALLS               makes a list of calls, as a new file, of a text or a spreadsheet
desk list CALLS                     the calls as such a text
desk same CALLS CALLS               are these the same calls, in any order and with any repeats?
desk run TABLE FAULTY CALLS         the vote: its passes, what was confirmed, drill or live for each site
desk missing TABLE FAULTY CALLS     which accept calls between intact sites does the list lack?
desk keep CALLS JOURNAL             keeps the list of calls as a new file, whole or not at all
desk journal JOURNAL                is the journal sound, and how many calls does it keep?
desk replay TABLE FAULTY JOURNAL    the vote, as desk run prints it, of the calls that the journal keeps
TEXT, TABLE, CALLS and JOURNAL name files; FAULTY is site numbers behind an s, as in s3,12, s alone for nobody;
or 1 to 16 hexadecimal digits, bit v for site v, 0 for nobody
",
    );
}

// The words behind a call's word, of a call on tables, where the word is one.
fn table_words(rt: &HostRuntime, word: &[u8]) -> bool {
    if check::same(word, b"make") {
        files::complain(
            rt,
            b"desk make TEXT TABLE: these are the words of the call\n",
        );
        return true;
    }
    if check::same(word, b"show") {
        files::complain(rt, b"desk show TABLE: these are the words of the call\n");
        return true;
    }
    if check::same(word, b"check") {
        files::complain(rt, b"desk check TABLE: these are the words of the call\n");
        return true;
    }
    if check::same(word, b"verdict") {
        files::complain(
            rt,
            b"desk verdict TABLE FAULTY: these are the words of the call\n",
        );
        return true;
    }
    if check::same(word, b"risk") {
        files::complain(rt, b"desk risk TABLE: these are the words of the call\n");
        return true;
    }
    false
}

// The same of a call on lists of calls.
fn call_words(rt: &HostRuntime, word: &[u8]) -> bool {
    if check::same(word, b"calls") {
        files::complain(
            rt,
            b"desk calls TEXT CALLS: these are the words of the call\n",
        );
        return true;
    }
    if check::same(word, b"list") {
        files::complain(rt, b"desk list CALLS: these are the words of the call\n");
        return true;
    }
    if check::same(word, b"same") {
        files::complain(
            rt,
            b"desk same CALLS CALLS: these are the words of the call\n",
        );
        return true;
    }
    if check::same(word, b"run") {
        files::complain(
            rt,
            b"desk run TABLE FAULTY CALLS: these are the words of the call\n",
        );
        return true;
    }
    if check::same(word, b"missing") {
        files::complain(
            rt,
            b"desk missing TABLE FAULTY CALLS: these are the words of the call\n",
        );
        return true;
    }
    false
}

// The same of a call on journals.
fn journal_words(rt: &HostRuntime, word: &[u8]) -> bool {
    if check::same(word, b"keep") {
        files::complain(
            rt,
            b"desk keep CALLS JOURNAL: these are the words of the call\n",
        );
        return true;
    }
    if check::same(word, b"journal") {
        files::complain(
            rt,
            b"desk journal JOURNAL: these are the words of the call\n",
        );
        return true;
    }
    if check::same(word, b"replay") {
        files::complain(
            rt,
            b"desk replay TABLE FAULTY JOURNAL: these are the words of the call\n",
        );
        return true;
    }
    false
}

// Says on standard error which words a call takes that has this word, and too few or too many behind it. Answers whether there is such a call.
pub fn words(rt: &HostRuntime, word: &[u8]) -> bool {
    if table_words(rt, word) {
        return true;
    }
    if call_words(rt, word) {
        return true;
    }
    journal_words(rt, word)
}
