// RFC 6184 as definitions alone: specs/ says what a sending of NAL units is, proofs/ what its octets tell. There is no code here.
#![tactic(auto)]
