// The verdict program: the faulty mask and a table image on standard input, the verdict on standard output.
#![tactic(auto)]

fn main(rt: HostRuntime) {
    shell::verdict(&rt);
}
