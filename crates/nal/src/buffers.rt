// Gathering fragments, and handing units out behind their prefix.
ghost use Rattle.std.specs.Prelude.{◌≡◌, [], ◌∷◌, ◌++◌, ◌<◌, ◌≤◌, ◌+◌, length, take};
ghost use Rattle.error.specs.Said.{said};
ghost use Rattle.wire.specs.Part.{splice};
ghost use Rattle.nal.specs.Fed.{prefix_for, prefix_of, prefixed, end_of, lay_bytes, lay_gather, lay_both};
ghost use Rattle.nal.specs.Said.{is_avc, out_heard, gather_heard, heard};

use crate::Prefix;
use error::Error;

pub const ANNEXB_NALUSTART_CODE: [u8; 4] = *b"\x00\x00\x00\x01";

// The four bytes in front of a unit of `len` bytes.
fn put_prefix(prefix: Prefix, len: usize, out: &mut [u8], at: usize)
    requires { (at + 4 ≤ length out.old) × (len < 4294967296) }
    ensures { out.new ≡ splice out.old at (prefix_for (is_avc prefix) len) }
{
    match prefix {
        Prefix::Length => wire::put_u32(out, at, len as u32),
        Prefix::StartCode => wire::copy_at(&ANNEXB_NALUSTART_CODE, out, at),
    }
}

// A unit behind its prefix.
pub(crate) fn put_unit(prefix: Prefix, unit: &[u8], out: &mut [u8], at: usize)
    requires { (at + 4 + length unit.now ≤ length out.old) × (length unit.now < 4294967296) }
    ensures { out.new ≡ splice out.old at (prefix_of (is_avc prefix) unit.now ++ unit.now) }
{
    put_prefix(prefix, unit.len(), out, at);
    wire::copy_at(unit, out, at + 4);
}

// A unit whose header was put together: its body stands in the gather buffer.
fn put_joined(prefix: Prefix, head: &[u8], body: &[u8], out: &mut [u8])
    requires { (4 + length head.now + length body.now ≤ length out.old) × (length head.now ≤ 65535) × (length body.now ≤ 16777215) }
    ensures { out.new ≡ splice out.old 0 (prefixed (is_avc prefix) ((head.now ++ body.now) ∷ [])) }
{
    put_prefix(prefix, head.len() + body.len(), out, 0);
    wire::copy_at(head, out, 4);
    wire::copy_at(body, out, 4 + head.len());
}

// Hands out a unit that stands as it is in a payload.
pub fn hand_plain(unit: &[u8], prefix: Prefix, out: &mut [u8]) -> Result<usize, Error>
    requires { length unit.now ≤ 65535 }
    ensures { out_heard result out.new ≡ lay_bytes out.old (prefixed (is_avc prefix) (unit.now ∷ [])) }
{
    let n = unit.len() + 4;
    if out.len() < n {
        return Err(Error::ErrBufferTooSmall);
    }
    put_unit(prefix, unit, out, 0);
    Ok(n)
}

// Where a run ends that goes on with a fragment's part behind the `at` bytes gathered before it.
fn run_end(part: &[u8], at: usize, gather: &[u8]) -> Result<usize, Error>
    requires { (length part.now ≤ 65535) × (at ≤ length gather.now) }
    ensures { said result ≡ end_of (length gather.now) (at + length part.now) }
{
    let end = at + part.len();
    if gather.len() < end || 16777215 < end {
        return Err(Error::GatherTooSmall);
    }
    Ok(end)
}

// Puts a fragment's part of its unit behind the `at` bytes gathered before it.
// Stays: 0 is the count of bytes handed out, so that a fragment's two calls, this and `finish`, answer alike.
pub fn gather_on(part: &[u8], at: usize, gather: &mut [u8]) -> Result<usize, Error>
    requires { (length part.now ≤ 65535) × (at ≤ length gather.old) }
    ensures { gather_heard result gather.new ≡ lay_gather gather.old (take at gather.old ++ part.now) }
{
    run_end(part, at, gather)?;
    wire::copy_at(part, gather, at);
    Ok(0)
}

// The same for the last fragment: the unit is whole, and is handed out behind its header.
pub fn finish(
    part: &[u8],
    at: usize,
    head: &[u8],
    prefix: Prefix,
    gather: &mut [u8],
    out: &mut [u8],
) -> Result<usize, Error>
    requires { (length part.now ≤ 65535) × (at ≤ length gather.old) × (length head.now ≤ 65535) }
    ensures { heard result gather.new out.new ≡ lay_both (is_avc prefix) gather.old out.old (take at gather.old ++ part.now) ((head.now ++ (take at gather.old ++ part.now)) ∷ []) }
{
    let end = run_end(part, at, gather)?;
    let n = 4 + head.len() + end;
    if out.len() < n {
        return Err(Error::ErrBufferTooSmall);
    }
    wire::copy_at(part, gather, at);
    put_joined(prefix, head, &gather[0..end], out);
    Ok(n)
}
