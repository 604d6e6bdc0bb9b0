// The functions of `runs` and `packs` beside a computation that takes one bit at a time, at every width from 0 to 24
// and every bit offset from 0 to 7. Each check answers how many things differ.
#![tactic(auto)]

ghost use Rattle.std.specs.Prelude.{◌+◌, ◌*◌, ◌<◌, ◌≤◌, length};

// Bit i, and 0 past the end.
fn bit(s: &[u8], i: usize) -> u32
    ensures { result < 2 }
{
    if i / 8 < s.len() {
        return ((s[i / 8] >> (7 - i % 8)) % 2) as u32;
    }
    0
}

// 1 where v is not the n bits from bit place `at` on, else 0.
fn differs(s: &[u8], at: usize, n: u8, v: u32) -> u32
    requires { (at < 65536) × (n ≤ 24) }
    ensures { result < 2 }
{
    if v >> n != 0 {
        return 1;
    }
    for j in 0..n {
        if bit(s, at + j as usize) != (v >> (n - 1 - j)) % 2 {
            return 1;
        }
    }
    0
}

// How many of vs are not the runs of n bits each from bit place `at` on.
fn values_differ(s: &[u8], at: usize, n: u8, vs: &[u32]) -> u32
    requires { (at < 256) × (n ≤ 24) × (length vs.now < 256) }
    ensures { result < 256 }
{
    let mut wrong: u32 = 0;
    let mut place = at;
    for v in vs {
        wrong += differs(s, place, n, *v);
        place += n as usize;
    }
    wrong
}

// How many bits from place `from` up to place `to` differ between s and t.
fn bits_differ(s: &[u8], t: &[u8], from: usize, to: usize) -> u32
    requires { to < 65536 }
    ensures { result < 65536 }
{
    (from..to).filter(|i| bit(s, *i) != bit(t, *i)).count() as u32
}

// How many of the n bits from octet p on are ones, bit by bit.
fn ones(s: &[u8], p: usize, n: u32) -> u32
    requires { (p < 256) × (n < 65536) }
    ensures { result ≤ n }
{
    (p * 8..p * 8 + n as usize)
        .filter(|i| bit(s, *i) == 1)
        .count() as u32
}

// Runs fetched one by one, far enough apart that the last lies past the end.
fn fetch_differs(s: &[u8], n: u8, o: u8) -> u32
    requires { (n ≤ 24) × (o < 8) }
    ensures { result < 256 }
{
    let mut wrong: u32 = 0;
    for k in 0..5 {
        let place = o as u32 + k * 4 * n as u32;
        wrong += differs(s, place as usize, n, runs::fetch(s, place, n));
    }
    wrong
}

// The runs packed into octets that all are 255: the runs, the padding and the octets after it.
fn pack_differs(vs: &[u32], n: u8, out: &mut [u8]) -> u32
    requires { (n ≤ 24) × (length vs.now < 256) × (length out.old < 1024) }
    ensures { result < 262144 }
{
    let zeros = [0u8; 64];
    let ones = [255u8; 64];
    let ends = vs.len() * n as usize;
    let pads = (ends + 7) / 8 * 8;
    let bits = out.len() * 8;
    if packs::pack(vs, n, out) {
        return values_differ(out, 0, n, vs)
            + bits_differ(out, &zeros, ends, pads)
            + bits_differ(out, &ones, pads, bits);
    }
    1
}

// The same into the first octets, as many as room says.
fn pack_part_differs(vs: &[u32], n: u8, room: usize, out: &mut [u8]) -> u32
    requires { (n ≤ 24) × (length vs.now < 256) × (length out.old < 1024) }
    ensures { result < 262144 }
{
    if room <= out.len() {
        return pack_differs(vs, n, &mut out[..room]);
    }
    1
}

// One run put after the first bits of s, over its octets: the bits before it, the run, the padding and the octets after
// it.
fn put_differs(s: &[u8], n: u8, from: u32, v: u32, out: &mut [u8]) -> u32
    requires { (n ≤ 24) × (from < 256) × (length out.old < 1024) }
    ensures { result < 524288 }
{
    let zeros = [0u8; 64];
    let place = from as usize;
    let ends = place + n as usize;
    let pads = (ends + 7) / 8 * 8;
    let bits = out.len() * 8;
    if packs::put_bits(out, from, n, v) {
        return bits_differ(out, s, 0, place)
            + differs(out, place, n, v)
            + bits_differ(out, &zeros, ends, pads)
            + bits_differ(out, s, pads, bits);
    }
    1
}

// Some octet, another for each place.
fn some(k: usize) -> u8
    requires { k < 256 }
{
    ((k * 37 + k / 3 * 91 + 5) % 256) as u8
}

// Runs unpacked from so many octets that they are taken in turns and, where some are left, one by one.
fn turns_differ(n: u8, o: u8) -> u32
    requires { (n ≤ 24) × (o < 8) }
    ensures { result < 256 }
{
    let mut s = [0u8; 128];
    for k in 0..128 {
        s[k] = some(k);
    }
    let mut vs = [0u32; 39];
    if !runs::unpack(&s, o as u32, n, &mut vs, 39) {
        return 1;
    }
    values_differ(&s, o as usize, n, &vs)
}

// How much differs at width n and offset o.
fn beside(n: u8, o: u8) -> u32
    requires { (n ≤ 24) × (o < 8) }
    ensures { result < 1048576 }
{
    let s = [
        1u8, 128, 254, 127, 71, 82, 73, 66, 165, 90, 195, 60, 0, 255, 16, 8, 147, 39, 214, 107,
        225, 30, 66, 189, 119, 136, 15, 240, 53, 202, 89, 166, 157, 98, 20, 235, 47, 208, 184, 71,
    ];
    let before = [165u8; 8];
    let mut after = [165u8; 8];
    let mut vs = [0u32; 17];
    let mut out = [255u8; 64];
    let room = (17 * n as usize + 7) / 8 + o as usize;
    let bits = n as u32 * 14 + o as u32;
    if !runs::unpack(&s, o as u32, n, &mut vs, 17) {
        return 1;
    }
    if runs::ones(&s, o as usize, bits) != ones(&s, o as usize, bits) {
        return 1;
    }
    let wrong = values_differ(&s, o as usize, n, &vs)
        + fetch_differs(&s, n, o)
        + turns_differ(n, o);
    let v = vs[2];
    wrong
        + pack_part_differs(&vs, n, room, &mut out)
        + put_differs(&before, n, 16 + o as u32, v, &mut after)
}

// Every check at each width and offset, and at how many of these pairs nothing differs.
fn main(rt: HostRuntime) {
    let mut agree: u64 = 0;
    for n in 0..25 {
        for o in 0..8 {
            if beside(n, o) == 0 {
                agree += 1;
            }
        }
    }
    program_io::write_decimal(&rt, agree);
    program_io::write_all(&rt, b" of 200 widths and offsets agree\n");
}
