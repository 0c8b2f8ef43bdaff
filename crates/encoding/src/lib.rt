// Not for callers: the encoder of catalogues (specs/Encode of `model`), as definitions and laws; no function. When what
// some tables hold is sound; that each number is then read back from their file; that the file is accepted; and how
// long it is.
// Relies on the definitions of `model`, on its laws on grounds and accepted catalogues, and on those of `file` on
// numbers. Cited by `standing`, `sheets`, `convert` and `conversion`.
#![tactic(auto)]
