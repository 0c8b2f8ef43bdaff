// Not for callers: that the reader of whole texts (`document_at`) takes exactly the texts of the supplier's form, and
// that a text means one forest only. Laws alone, no function.
// Relies on the definitions of `model` and on the laws of `readers`, `spelling` and `numerals`. Cited by
// `conversion`.
#![tactic(auto)]
