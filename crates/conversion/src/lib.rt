// Not for callers: what the conversion of a supplier's text comes to, as definitions and laws; no function. Which texts
// are of the form, and that each means one thing; when a text is converted and when it is refused by which number; and
// what is then in the output.
// Relies on the definitions of `model`, on the laws of `grammar` and `numerals` on texts, and on those of `standing`
// and `encoding` on the tables that a text makes and on their file. No crate relies on it: its theorems are about the
// definitions that the contract of the conversion cites.
#![tactic(auto)]
