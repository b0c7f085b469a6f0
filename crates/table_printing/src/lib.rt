// What the programs print of tables. Of these standard output is written by `say` alone, which has the text in hand and nothing else; it is called by
// the functions behind it, and each of these is lent the bytes that were read.
#![tactic(auto)]

ghost use Rattle.std.specs.Prelude.{true, false, ◌≡◌};
ghost use Rattle.check_text.specs.Table.{check_text};
ghost use Rattle.verdict_sites.specs.Sites.{verdict_sites};
ghost use Rattle.risk_text.specs.RiskText.{risk_text};
ghost use Rattle.table_made.specs.Made.{made};
ghost use Rattle.table_said.specs.MakeText.{make_text, is_answer};
ghost use Rattle.table_text.specs.ShowText.{show_text};
ghost use Rattle.verdict_text.specs.Verdict.{verdict_text, input_text};
ghost use Rattle.table_printing.specs.SaidOfTables.{SaidOfTables};

// Prints a text that some bytes have, and no other.
fn say(rt: &HostRuntime, text: &[u8])
    requires { SaidOfTables text.now }
{
    files::answer(rt, text);
}

// Prints what the verdict program answers to its input.
pub fn say_input(rt: &HostRuntime, input: &[u8], answer: &[u8])
    requires { answer.now ≡ input_text input.now }
{
    say(rt, answer);
}

// Prints the check of an image.
pub fn say_check(rt: &HostRuntime, image: &[u8], check: &[u8])
    requires { check.now ≡ check_text image.now }
{
    say(rt, check);
}

// Prints the verdict on an image.
pub fn say_verdict(rt: &HostRuntime, faulty: u64, image: &[u8], verdict: &[u8])
    requires { verdict.now ≡ verdict_text faulty image.now }
{
    say(rt, verdict);
}

// Prints the sets of the verdict on an image, by their sites' numbers.
pub fn say_sites(rt: &HostRuntime, faulty: u64, image: &[u8], sites: &[u8])
    requires { sites.now ≡ verdict_sites faulty image.now }
{
    say(rt, sites);
}

// Prints what is at stake when sites of an image's table break.
pub fn say_risk(rt: &HostRuntime, image: &[u8], risk: &[u8])
    requires { risk.now ≡ risk_text image.now }
{
    say(rt, risk);
}

// Prints what is said of a text that is a table, or that has a group that is refused.
pub fn say_make(rt: &HostRuntime, table: &[u8], answer: &[u8])
    requires table_value { is_answer (made table.now 4032) ≡ true }
    requires answer_value { answer.now ≡ make_text table.now }
{
    say(rt, answer);
}

// Says on standard error what was expected in a text that is none.
pub fn blame(rt: &HostRuntime, table: &[u8], fault: &[u8])
    requires table_value { is_answer (made table.now 4032) ≡ false }
    requires fault_value { fault.now ≡ make_text table.now }
{
    files::complain(rt, fault);
}

// Prints the table that an image holds, as text.
pub fn say_show(rt: &HostRuntime, image: &[u8], shown: &[u8])
    requires { shown.now ≡ show_text image.now }
{
    say(rt, shown);
}
