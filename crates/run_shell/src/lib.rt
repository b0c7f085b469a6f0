// What the desk does with a table and a list of calls: read, have the text made, print it. Nothing here decides anything of the rules.
#![tactic(auto)]

// desk run TABLE FAULTY CALLS
pub fn run_of(rt: &HostRuntime, table: usize, sites: usize, calls: usize) {
    let mut image = io::large_buffer();
    let whole = files::fetch(rt, b"desk run TABLE FAULTY CALLS", table, &mut image);
    let Some(n) = whole else {
        return;
    };
    let image = &image[..n];
    let typed = files::faulty(rt, b"desk run TABLE FAULTY CALLS", sites);
    let Some(faulty) = typed else {
        return;
    };
    let mut list = io::large_buffer();
    let whole = files::fetch(rt, b"desk run TABLE FAULTY CALLS", calls, &mut list);
    let Some(m) = whole else {
        return;
    };
    let list = &list[..m];
    let mut room = [0u8; run_text::ROOM];
    let end = run_text::run(faulty, image, list, &mut room);
    call_printing::say_run(rt, faulty, image, list, &room[..end]);
    doubting::doubt(rt, b"desk run TABLE FAULTY CALLS", image, list, room[0]);
}
