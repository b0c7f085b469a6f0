// What the desk does to show a list of calls, and to compare two: read, have the text made, print it. Nothing here decides anything of the rules.
#![tactic(auto)]

// desk list CALLS, where CALLS is an argument's number
pub fn list_of(rt: &HostRuntime, calls: usize) {
    let mut list = io::large_buffer();
    let whole = files::fetch(rt, b"desk list CALLS", calls, &mut list);
    let Some(n) = whole else {
        return;
    };
    let list = &list[..n];
    let mut room = [0u8; 344064];
    let end = calls_listed::list(list, &mut room);
    call_printing::say_list(rt, list, &room[..end]);
}

// desk same CALLS CALLS, where both are the numbers of arguments
pub fn same_of(rt: &HostRuntime, first: usize, second: usize) {
    let mut a = io::large_buffer();
    let whole = files::fetch(rt, b"desk same CALLS CALLS", first, &mut a);
    let Some(n) = whole else {
        return;
    };
    let a = &a[..n];
    let mut b = io::large_buffer();
    let whole = files::fetch(rt, b"desk same CALLS CALLS", second, &mut b);
    let Some(m) = whole else {
        return;
    };
    let b = &b[..m];
    let mut room = [0u8; 752640];
    let end = same_text::same(a, b, &mut room);
    call_printing::say_same(rt, a, b, &room[..end]);
}
