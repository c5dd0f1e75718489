// What the reader and the writer of crate `header` do, held against RFC 3550 and RFC 8285: theorems in proofs/, and no code but this.
#![tactic(auto)]

ghost use Rattle.std.specs.Prelude.{◌≡◌};
ghost use Rattle.header_rfc.specs.RoundTrip.{AsTyped};

use header::Header;

// Any record, as it came: what the theorems on writing ask of its numbers and arrays is what its types make sure of.
fn typed(h: Header) -> Header
    ensures { (result ≡ h) × AsTyped h }
{
    h
}
