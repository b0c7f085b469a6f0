// What the programs print of calls and of runs. Of these standard output is written by `say` alone, which has the text in hand and nothing else; it is called
// by the functions behind it, and each of these is lent the bytes that were read.
#![tactic(auto)]

ghost use Rattle.std.specs.Prelude.{◌≡◌};
ghost use Rattle.calls_listed.specs.Listed.{list_text};
ghost use Rattle.calls_said.specs.Faults.{made_text};
ghost use Rattle.missing_text.specs.MissingText.{missing_text};
ghost use Rattle.same_text.specs.SameText.{same_text};
ghost use Rattle.run_text.specs.Run.{run_text};
ghost use Rattle.call_printing.specs.SaidOfCalls.{SaidOfCalls};

// Prints a text that some bytes have, and no other.
fn say(rt: &HostRuntime, text: &[u8])
    requires { SaidOfCalls text.now }
{
    files::answer(rt, text);
}

// Prints the run of a list of calls on an image.
pub fn say_run(rt: &HostRuntime, faulty: u64, image: &[u8], list: &[u8], run: &[u8])
    requires { run.now ≡ run_text faulty image.now list.now }
{
    say(rt, run);
}

// Prints the accept calls that a list of calls lacks on an image.
pub fn say_missing(rt: &HostRuntime, faulty: u64, image: &[u8], list: &[u8], missing: &[u8])
    requires { missing.now ≡ missing_text faulty image.now list.now }
{
    say(rt, missing);
}

// Prints what is said of a text of calls.
pub fn say_made(rt: &HostRuntime, text: &[u8], said: &[u8])
    requires { said.now ≡ made_text text.now }
{
    say(rt, said);
}

// Prints a list of calls as text.
pub fn say_list(rt: &HostRuntime, list: &[u8], text: &[u8])
    requires { text.now ≡ list_text list.now }
{
    say(rt, text);
}

// Prints the comparison of two lists of calls.
pub fn say_same(rt: &HostRuntime, a: &[u8], b: &[u8], text: &[u8])
    requires { text.now ≡ same_text a.now b.now }
{
    say(rt, text);
}
