// What the desk does to show a table, and what is at stake on it: read, have the text made, print it. Nothing here decides anything of the rules.
#![tactic(auto)]

// desk show TABLE, where TABLE is an argument's number
pub fn show_of(rt: &HostRuntime, k: usize) {
    let mut image = io::large_buffer();
    let whole = files::fetch(rt, b"desk show TABLE", k, &mut image);
    let Some(n) = whole else {
        return;
    };
    let image = &image[..n];
    let mut room = [0u8; 786432];
    let end = table_text::show(image, &mut room);
    table_printing::say_show(rt, image, &room[..end]);
}

// desk risk TABLE, where TABLE is an argument's number
pub fn risk_of(rt: &HostRuntime, k: usize) {
    let mut image = io::large_buffer();
    let whole = files::fetch(rt, b"desk risk TABLE", k, &mut image);
    let Some(n) = whole else {
        return;
    };
    let image = &image[..n];
    let mut room = [0u8; 196608];
    let end = risk_text::risk(image, &mut room);
    table_printing::say_risk(rt, image, &room[..end]);
}
