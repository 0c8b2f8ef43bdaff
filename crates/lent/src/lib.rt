// Not for callers: laws for proofs that walk the code by hand, statement by statement; no function. Over a lent slice
// (`Lent`), a local array (`Local`), a call (`Called`), and the end of a walk (`Walk`).
// Relies on nothing. Cited by nothing today: the check covers every function.
#![tactic(auto)]
