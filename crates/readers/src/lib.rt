// Not for callers: definitions and laws for the readers of a supplier's text: a word that stands in a text, one reader
// after another, and a reader again and again. No function.
// Relies on the definitions of `model`. Cited by `numerals`, `spelling`, `grammar`, `scanner` and
// `elements`.
#![tactic(auto)]
