// What the desk does to say what a list of calls lacks: read, have the text made, print it. Nothing here decides anything of the rules.
#![tactic(auto)]

// desk missing TABLE FAULTY CALLS
pub fn missing_of(rt: &HostRuntime, table: usize, sites: usize, calls: usize) {
    let mut image = io::large_buffer();
    let whole = files::fetch(rt, b"desk missing TABLE FAULTY CALLS", table, &mut image);
    let Some(n) = whole else {
        return;
    };
    let image = &image[..n];
    let typed = files::faulty(rt, b"desk missing TABLE FAULTY CALLS", sites);
    let Some(faulty) = typed else {
        return;
    };
    let mut list = io::large_buffer();
    let whole = files::fetch(rt, b"desk missing TABLE FAULTY CALLS", calls, &mut list);
    let Some(m) = whole else {
        return;
    };
    let list = &list[..m];
    let mut room = [0u8; 196608];
    let end = missing_text::missing(faulty, image, list, &mut room);
    call_printing::say_missing(rt, faulty, image, list, &room[..end]);
}
