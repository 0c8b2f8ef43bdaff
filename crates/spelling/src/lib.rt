// Not for callers: laws of the readers of small things in a supplier's text: white space, bytes, words, numerals and
// attributes. Each reads exactly what the form spells. No function.
// Relies on the definitions of `model`, on `readers` and on the laws of `numerals`. Cited by `grammar`.
#![tactic(auto)]
