// Not for callers: what the check of a packed list by evidence comes to, as definitions and laws; no function. Each
// refusal in words; that what is accepted is the full listing, with a true record above each backed failing set; and
// that for every accepted catalogue there is evidence with which its full listing is accepted.
// Relies on the definitions of `model`, on the laws of `evidence` on records and tests, and on those of `packed`,
// `entries` and `grounds` on packed lists and codes. No crate relies on it: its theorems are about the definitions that
// the contract of `verify::verify` cites.
#![tactic(auto)]
