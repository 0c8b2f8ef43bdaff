// Not for callers: laws of the numbers and the tags of a supplier's text, over lists; no function. A number is read
// back from its decimal digits, and digits without leading zeros are those of the number that they give; a tag gives
// its table and its attributes; and the tags of a text are its rows in text order.
// Relies on the definitions of `model`, `readers` and `standing`. Cited by `spelling`, `grammar` and `conversion`.
#![tactic(auto)]
