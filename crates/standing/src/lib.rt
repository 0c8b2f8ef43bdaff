// Not for callers: the rows of a forest read off its tags one after the other, as definitions and laws; no function.
// The tables that the tags make are the tables that the rows make as they stand in each other, if these fit an accepted
// shape; and what these tables hold is sound: how many rows, their codes, their parent rows.
// Relies on the definitions of `model` and its laws on accepted catalogues. Cited by `numerals`, `grammar`, `sheets`
// and `conversion`.
#![tactic(auto)]
