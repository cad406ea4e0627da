// Numbers as bytes, low byte first, and runs of them.
ghost use Rattle.std.specs.Prelude.{◌≡◌, cond, leb, ◌+◌, ◌*◌, ◌≤◌, length, take, drop};
ghost use Rattle.flat.specs.Output.{over};
ghost use Rattle.encoded.specs.Encoding.{number, arg_bytes, args_from, count_in};

// The count that bytes begin with, where they are 2 or more.
pub fn count(encoded: &[u8]) -> Option<usize>
    ensures { let s = encoded.now in
        result ≡ cond (leb 2 (length s)) (Some (count_in s)) None }
{
    let low_first: &[u8; 2] = encoded.first_chunk()?;
    Some(usize::from(u16::from_le_bytes(*low_first)))
}

// The 8 bytes at a place.
pub fn word(s: &[u8], at: usize) -> u64
    requires { at + 8 ≤ length s.now }
    ensures { result ≡ number (take 8 (drop at s.now)) }
{
    u64::from_le_bytes(*s[at..].first_chunk().unwrap())
}

// Copies bytes over as many others. By the index: `copy_from_slice` of so many as only the run tells would need
// `memmove` of a C caller, and this loop needs no more than `memcpy`.
pub fn copy(src: &[u8], dst: &mut [u8])
    requires { length src.now ≡ length dst.old }
    ensures { dst.new ≡ src.now }
{
    for (i, &byte) in src.iter().enumerate() {
        dst[i] = byte;
    }
}

// Reads as many arguments as args holds, from the front of src.
pub fn read_args(src: &[u8], args: &mut [u64])
    requires { 8 * length args.old ≤ length src.now }
    ensures { args.new ≡ args_from 8 (length args.old) src.now }
{
    let (words, _) = src.as_chunks();
    // by the index: of what is written through an adapter of `iter_mut` no proof knows
    for (i, arg) in args.iter_mut().enumerate() {
        *arg = u64::from_le_bytes(words[i]);
    }
}

// Writes the arguments to the front of out.
pub fn write_args(args: &[u64], out: &mut [u8])
    requires { 8 * length args.now ≤ length out.old }
    ensures { out.new ≡ over (arg_bytes 8 args.now) out.old }
{
    // by the place: of what is written through `chunks_exact_mut` no proof knows
    for (i, arg) in args.iter().enumerate() {
        let at = 8 * i;
        out[at..at + 8].copy_from_slice(&arg.to_le_bytes());
    }
}
