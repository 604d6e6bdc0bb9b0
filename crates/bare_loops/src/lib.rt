// The two loops under reading and writing, for C to time alone beside the whole codec (`bare_loops_c`, bench/). Nothing
// else uses this.
#![tactic(auto)]

ghost use Rattle.std.specs.Prelude.{◌≡◌, length};
ghost use Rattle.runs.specs.Take.{unpack_fits, unpacked};
ghost use Rattle.packs.specs.Pack.{pack_fits, packed};

// As `runs::unpack`.
pub fn bare_unpack(s: &[u8], at: u32, n: u8, out: &mut [u32], m: u32) -> bool
    ensures value { result ≡ unpack_fits n m (length out.old) }
    ensures out_after { out.new ≡ unpacked s.now at n m out.old }
{
    runs::unpack(s, at, n, out, m)
}

// As `packs::pack`.
pub fn bare_pack(vs: &[u32], n: u8, out: &mut [u8]) -> bool
    ensures value { result ≡ pack_fits n vs.now (length out.old) }
    ensures out_after { out.new ≡ packed n vs.now out.old }
{
    packs::pack(vs, n, out)
}
