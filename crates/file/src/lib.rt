// Not for callers: numbers in a file, unsigned and little-endian, read and written at any position; a byte past the end
// reads as 0.
// Relies on the definitions of `model`. Called by `layout`, `grounds`, `entries`, `packing`, `unpacking`, `evidence`
// and `marks`, and by `attributes`, `scanner`, `elements`, `tags` and `sheets`; the laws on numbers as bytes stand in
// proofs/.
#![tactic(auto)]

ghost use Rattle.std.specs.Prelude.{◌+◌, ◌≤◌, ◌≡◌, length};
ghost use Rattle.std.proofs.lemmas.List.Edits.{sets};
ghost use Rattle.model.specs.Bytes.{byte_at, u16_at, u32_at, bytes2, bytes4};

// The byte at i.
pub fn byte_at(b: &[u8], i: usize) -> u8
    ensures { result ≡ byte_at b.now i }
{
    b.get(i).copied().unwrap_or(0)
}

// The 2-byte number at i. It and the next stay two: their results have two types, and each is one call of the library.
#[tactic(auto, using(crate::proofs::Past::u16_past), unfolding(model::specs::Bytes::u16_at))]
pub fn u16_at(b: &[u8], i: usize) -> u16
    ensures { result ≡ u16_at b.now i }
{
    if b.len() <= i {
        return 0;
    }
    u16::from_le_bytes([byte_at(b, i), byte_at(b, i + 1)])
}

// The 4-byte number at i.
#[tactic(auto, using(crate::proofs::Past::u32_past), unfolding(model::specs::Bytes::u32_at))]
pub fn u32_at(b: &[u8], i: usize) -> u32
    ensures { result ≡ u32_at b.now i }
{
    if b.len() <= i {
        return 0;
    }
    u32::from_le_bytes([
        byte_at(b, i),
        byte_at(b, i + 1),
        byte_at(b, i + 2),
        byte_at(b, i + 3),
    ])
}

// Writes the 2 lowest bytes of a number at i. It and the next stay two: contracts name `bytes2` and `bytes4`, and each is
// one line.
pub fn put_u16(out: &mut [u8], i: usize, x: usize)
    requires { i + 2 ≤ length out.old }
    ensures { out.new ≡ sets out.old i (bytes2 x) }
{
    out[i..i + 2].copy_from_slice(&x.to_le_bytes()[..2]);
}

// Writes the 4 lowest bytes of a number at i.
pub fn put_u32(out: &mut [u8], i: usize, x: usize)
    requires { i + 4 ≤ length out.old }
    ensures { out.new ≡ sets out.old i (bytes4 x) }
{
    out[i..i + 4].copy_from_slice(&x.to_le_bytes()[..4]);
}
