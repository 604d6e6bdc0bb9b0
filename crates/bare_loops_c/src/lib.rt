// The functions of `bare_loops` for C, which times them beside the whole codec (bench/). Nothing else links this.
#![tactic(auto)]

ghost use Rattle.std.specs.Prelude.{◌≡◌, length};
ghost use Rattle.runs.specs.Take.{unpack_fits, unpacked};
ghost use Rattle.packs.specs.Pack.{pack_fits, packed};

// As `runs::unpack`.
#[unsafe(no_mangle)]
pub extern "C" fn bare_unpack(s: &[u8], at: u32, n: u8, out: &mut [u32], m: u32) -> bool
    ensures value { result ≡ unpack_fits n m (length out.old) }
    ensures out_after { out.new ≡ unpacked s.now at n m out.old }
{
    bare_loops::bare_unpack(s, at, n, out, m)
}

// As `packs::pack`.
#[unsafe(no_mangle)]
pub extern "C" fn bare_pack(vs: &[u32], n: u8, out: &mut [u8]) -> bool
    ensures value { result ≡ pack_fits n vs.now (length out.old) }
    ensures out_after { out.new ≡ packed n vs.now out.old }
{
    bare_loops::bare_pack(vs, n, out)
}
