// The receiver's questions, asked only of what is new since the rules were last asked of it.
#![tactic(auto)]

ghost use Rattle.std.specs.Prelude.{◌≡◌, false, ◌<◌};
ghost use Rattle.rules.specs.Rules.{accepting};
ghost use Rattle.rules.specs.Inner.{New};
ghost use Rattle.sets.specs.Inner.Rows.{Rows, row_questions};

// The receiver belongs to the largest quorum inside w. It does not belong to that inside before, where only the sender and the receiver are new. If the
// sender has no slice inside w, it brings nobody in.
pub fn now_in_quorum(
    table: &[u64],
    n: usize,
    sender: usize,
    receiver: usize,
    before: u64,
    w: u64,
) -> bool
    requires rows { Rows table.now n }
    requires sender_lt_n { sender < n }
    requires receiver_lt_n { receiver < n }
    requires before_value { (row_questions table.now n).in_quorum receiver before ≡ false }
    requires new { New sender receiver before w }
    ensures { result ≡ (row_questions table.now n).in_quorum receiver w }
{
    if w == before {
        return false;
    }
    if !masks::has(before, receiver as u64) {
        return asking::in_quorum(table, n, receiver, w);
    }
    if !asking::has_slice(table, n, receiver, sender, w) {
        return false;
    }
    asking::in_quorum(table, n, receiver, w)
}

// The sites of others block the receiver. Those of before do not.
fn now_blocked(table: &[u64], n: usize, receiver: usize, before: u64, others: u64) -> bool
    requires rows { Rows table.now n }
    requires receiver_lt_n { receiver < n }
    requires before_value { (row_questions table.now n).blocked receiver before ≡ false }
    ensures { result ≡ (row_questions table.now n).blocked receiver others }
{
    if others == before {
        return false;
    }
    asking::blocked(table, n, receiver, others)
}

// The receiver accepts from the votes and accepts that it heard, its own accept not counted. From those before it does not, and only the sender and the
// receiver are new.
pub fn now_accepting(
    table: &[u64],
    n: usize,
    sender: usize,
    receiver: usize,
    votes_before: u64,
    accepts_before: u64,
    votes: u64,
    accepts: u64,
) -> bool
    requires rows { Rows table.now n }
    requires sender_lt_n { sender < n }
    requires receiver_lt_n { receiver < n }
    requires accepts_before_value { accepting (row_questions table.now n) receiver votes_before accepts_before ≡ false }
    requires new { New sender receiver votes_before votes }
    requires new_2 { New sender receiver accepts_before accepts }
    ensures { result ≡ accepting (row_questions table.now n) receiver votes accepts }
{
    let own = masks::single(receiver as u64);
    let before = masks::minus(accepts_before, own);
    let others = masks::minus(accepts, own);
    if now_blocked(table, n, receiver, before, others) {
        return true;
    }
    now_in_quorum(
        table,
        n,
        sender,
        receiver,
        votes_before | before,
        votes | others,
    )
}
