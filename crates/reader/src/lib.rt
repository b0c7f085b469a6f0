// A reader that holds the journal and its place, and gives one call at a time. The work is done by `journal_next::next_at`, on a slice and a number.
#![tactic(auto)]

ghost use Rattle.std.specs.Prelude.{◌≡◌};
ghost use Rattle.journal_next.specs.Next.{next};
ghost use Rattle.reader.specs.Reader.{sound_part};

use journal_next::Next;

// The journal, and the place of the next call, counted in calls from 0.
#[derive(Drop)]
pub struct Reader<'a> {
    pub src: &'a [u8],
    pub at: usize,
}

// The journal if it is sound, and none of it if it is refused. The check beside it gives the number.
pub fn sound_part<'a>(journal: &'a [u8]) -> &'a [u8]
    ensures { result.now ≡ sound_part journal.now }
{
    match journal::check(journal) {
        Ok(_) => journal,
        Err(_) => &journal[..0],
    }
}

// A reader at the first call. The journal is checked whole before it; a reader of a journal that is refused gives no call.
pub fn open<'a>(journal: &'a [u8]) -> Reader<'a>
    ensures { (result.src.now ≡ sound_part journal.now) × (result.at ≡ 0) }
{
    Reader {
        src: sound_part(journal),
        at: 0,
    }
}

// The next call and the place behind it, or that none is left.
pub fn next<'a>(r: Reader<'a>) -> Option<Next>
    ensures { result ≡ next r.entry.src.now r.entry.at }
{
    journal_next::next_at(r.src, r.at)
}

// The same reader at another place.
pub fn moved<'a>(r: Reader<'a>, at: usize) -> Reader<'a>
    ensures { (result.src ≡ r.entry.src) × (result.at ≡ at) }
{
    Reader { src: r.src, at }
}
