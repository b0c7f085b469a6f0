// What the desk does with journals: read, have the text made, print it. Nothing here decides anything of the rules.
#![tactic(auto)]

// desk journal JOURNAL, where JOURNAL is an argument's number; so are the words of the other
pub fn check_of(rt: &HostRuntime, k: usize) {
    let mut journal = io::large_buffer();
    let whole = files::fetch(rt, b"desk journal JOURNAL", k, &mut journal);
    let Some(n) = whole else {
        return;
    };
    let journal = &journal[..n];
    let mut room = [0u8; 196608];
    let end = journal_text::check(journal, &mut room);
    journal_printing::say_journal(rt, journal, &room[..end]);
}

// desk replay TABLE FAULTY JOURNAL
pub fn replay_of(rt: &HostRuntime, table: usize, sites: usize, kept: usize) {
    let mut image = io::large_buffer();
    let whole = files::fetch(rt, b"desk replay TABLE FAULTY JOURNAL", table, &mut image);
    let Some(n) = whole else {
        return;
    };
    let image = &image[..n];
    let typed = files::faulty(rt, b"desk replay TABLE FAULTY JOURNAL", sites);
    let Some(faulty) = typed else {
        return;
    };
    let mut journal = io::large_buffer();
    let whole = files::fetch(rt, b"desk replay TABLE FAULTY JOURNAL", kept, &mut journal);
    let Some(m) = whole else {
        return;
    };
    let journal = &journal[..m];
    let mut room = [0u8; run_text::ROOM];
    let end = replay_text::replay(faulty, image, journal, &mut room);
    journal_printing::say_replay(rt, faulty, image, journal, &room[..end]);
    doubting::doubt_kept(
        rt,
        b"desk replay TABLE FAULTY JOURNAL",
        image,
        journal,
        room[0],
    );
}
