// What the two programs do with tables and lists: read, have the text made, print it. Nothing here decides anything of the rules.
#![tactic(auto)]

// The verdict program, on standard input, which holds the faulty mask and an image. One byte more than the most that is taken is asked for, so that a
// longer input shows.
pub fn verdict(rt: &HostRuntime) {
    let mut input = [0u8; 32777];
    let n = files::read_full(&mut rt.stdin(), &mut input);
    let given = &input[..n];
    let mut room = [0u8; 196608];
    let end = verdict_text::verdict_on(given, &mut room);
    table_printing::say_input(rt, given, &room[..end]);
}

// desk check TABLE, where TABLE is an argument's number; so are the words of the others
pub fn check(rt: &HostRuntime, k: usize) {
    let mut image = io::large_buffer();
    let whole = files::fetch(rt, b"desk check TABLE", k, &mut image);
    let Some(n) = whole else {
        return;
    };
    let image = &image[..n];
    let mut room = [0u8; 196608];
    let end = check_text::check(image, &mut room);
    table_printing::say_check(rt, image, &room[..end]);
}

// desk verdict TABLE FAULTY
pub fn verdict_of(rt: &HostRuntime, table: usize, sites: usize) {
    let mut image = io::large_buffer();
    let whole = files::fetch(rt, b"desk verdict TABLE FAULTY", table, &mut image);
    let Some(n) = whole else {
        return;
    };
    let image = &image[..n];
    let typed = files::faulty(rt, b"desk verdict TABLE FAULTY", sites);
    let Some(faulty) = typed else {
        return;
    };
    let mut room = [0u8; 196608];
    let end = verdict_text::verdict(faulty, image, &mut room);
    table_printing::say_verdict(rt, faulty, image, &room[..end]);
    let mut room = [0u8; 196608];
    let end = verdict_sites::verdict_sites(faulty, image, &mut room);
    table_printing::say_sites(rt, faulty, image, &room[..end]);
}
