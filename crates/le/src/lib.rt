// Little-endian numbers in byte slices: the lowest byte first.
#![tactic(auto)]

ghost use Rattle.std.specs.Prelude.{◌≡◌, ◌+◌, ◌<◌, ◌≤◌, length};
ghost use Rattle.std.proofs.lemmas.List.Edits.{sets};
ghost use Rattle.le.specs.Le.{field, digits};

// The 16-bit number in bytes at and at + 1.
pub fn get16(b: &[u8], at: usize) -> u16
    requires { at + 2 ≤ length b.now }
    ensures { result ≡ field 2 b.now at }
{
    (usize::from(b[at]) + 256 * usize::from(b[at + 1])) as u16
}

// The 32-bit number in the four bytes from at, added from the lowest: so it is compiled as one read.
pub fn get32(b: &[u8], at: usize) -> u32
    requires { at + 4 ≤ length b.now }
    ensures { result ≡ field 4 b.now at }
{
    (usize::from(b[at])
        + 256 * usize::from(b[at + 1])
        + 65536 * usize::from(b[at + 2])
        + 16777216 * usize::from(b[at + 3])) as u32
}

// The 64-bit number in the eight bytes from at, two halves of one part: so it is compiled as one read.
pub fn get64(b: &[u8], at: usize) -> u64
    requires { at + 8 ≤ length b.now }
    ensures { result ≡ field 8 b.now at }
{
    let part = &b[at..at + 8];
    u64::from(get32(part, 0)) + 4294967296 * u64::from(get32(part, 4))
}

// Writes a 16-bit number into bytes at and at + 1.
pub fn put16(b: &mut [u8], at: usize, v: u16)
    requires { at + 2 ≤ length b.old }
    ensures { b.new ≡ sets b.old at (digits 2 v) }
{
    b[at] = (v % 256) as u8;
    b[at + 1] = (v / 256 % 256) as u8;
}

// Writes a 32-bit number into the four bytes from at.
pub fn put32(b: &mut [u8], at: usize, v: u32)
    requires { at + 4 ≤ length b.old }
    ensures { b.new ≡ sets b.old at (digits 4 v) }
{
    put16(b, at, (v % 65536) as u16);
    put16(b, at + 2, (v / 65536) as u16);
}

// Writes a 64-bit number into the eight bytes from at.
pub fn put64(b: &mut [u8], at: usize, v: u64)
    requires { at + 8 ≤ length b.old }
    ensures { b.new ≡ sets b.old at (digits 8 v) }
{
    put32(b, at, (v % 4294967296) as u32);
    put32(b, at + 4, (v / 4294967296) as u32);
}
