// The call at a place of a journal.
#![tactic(auto)]

ghost use Rattle.std.specs.Prelude.{◌≡◌};
ghost use Rattle.journal_next.specs.Next.{next};

// One call of the journal and the place behind it.
#[derive(Clone, Copy)]
pub struct Next {
    pub kind: u8,
    pub from: u8,
    pub to: u8,
    pub side: u8,
    pub place: usize,
}

// The call at a place, counted in calls from 0, whatever the bytes are, or none is left.
pub fn next_at(journal: &[u8], place: usize) -> Option<Next>
    ensures { result ≡ next journal.now place }
{
    let i = place / 125;
    if journal.len() / 512 <= i {
        return None;
    }
    let b = &journal[512 * i..512 * i + 512];
    let k = place % 125;
    if journal_block::calls_in(b) <= k {
        return None;
    }
    let at = 4 + 4 * k;
    Some(Next {
        kind: b[at],
        from: b[at + 1],
        to: b[at + 2],
        side: b[at + 3],
        place: place + 1,
    })
}
