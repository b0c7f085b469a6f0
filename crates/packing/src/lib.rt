// A list of calls as bytes: records of four byte values, put one behind the other into a room for 4,096 of them.
#![tactic(auto)]

ghost use Rattle.std.specs.Prelude.{◌≡◌, length};
ghost use Rattle.packing.specs.Inner.{put_at, pack_to, packable};

// A call: kind (0 propose, 1 vote, 2 accept), from, to, side (0 drill, 1 live).
#[repr(C)]
#[derive(Clone, Copy)]
pub struct Call {
    pub kind: u8,
    pub from: u8,
    pub to: u8,
    pub side: u8,
}

// Call i put in its place in a room for 4,096 calls, four bytes a call; past the room nothing changes.
#[tactic(auto, unfolding(crate::specs::Inner::put_at))]
fn put_call(room: &mut [u8; 16384], i: usize, c: Call)
    ensures { room.new ≡ put_at room.old i c }
{
    if i < 4096 {
        let at = 4 * i;
        room[at] = c.kind;
        room[at + 1] = c.from;
        room[at + 2] = c.to;
        room[at + 3] = c.side;
    }
}

// How many calls of a list of n are packed: a list of more than 4,096 is refused by its length, and none of it is walked.
#[tactic(auto, unfolding(crate::specs::Inner::packable))]
fn packable(many: usize) -> usize
    ensures { result ≡ packable many }
{
    if many > 4096 { 0 } else { many }
}

// The calls as bytes, in a room for 4,096 of them.
pub fn pack(calls: &[Call], room: &mut [u8; 16384])
    ensures { room.new ≡ pack_to room.old calls.now (packable (length calls.now)) }
{
    let n = packable(calls.len());
    for i in 0..n {
        put_call(room, i, calls[i]);
    }
}
