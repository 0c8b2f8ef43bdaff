// Not for callers: an array filled place by place, as a definition and laws; no function. The elements of one run are
// as a function says of their places in it, and all others are as before: the form of each loop that writes an array
// from one end of a run to the other. With it stands the law of every loop over numbers: what is shown of all below
// one is shown of one more.
// Relies on nothing. Its laws are cited by `table`, `grouping`, `climb`, `keys`, `presence`, `partition`, `lines`,
// `scan`, `evidence`, `marks` and `rights`.
#![tactic(auto)]
