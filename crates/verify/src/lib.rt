// The check of a packed list by evidence: what it accepts is the full listing of the catalogue, whoever made it. The
// catalogue is checked first, then the list, then all records, all entries and all backed sets, target by target. It
// brings its own memory.
// Relies on `grounds` and `packed` for what stands against the catalogue and the list, on `records`, `soundness` and
// `coverage` for the records, entries and sets of one target, on `evidence` and `marks` for records and entries as
// runs, and on `layout` for the targets. `acceptance` has the theorems about what it accepts. Called by hosts and
// programs.
#![tactic(auto)]

ghost use Rattle.std.specs.Prelude.{◌<◌, ◌≡◌, true, ◌↔◌};
ghost use Rattle.model.specs.Catalogue.{tables as tables_of};
ghost use Rattle.model.specs.Check.{Accepted};
ghost use Rattle.model.specs.Evidence.{TrueRecord, records_held};
ghost use Rattle.model.specs.Reply.{verify_reply};
ghost use Rattle.model.specs.Verify.{TrueRecords, SoundEntries, CoveredSets, verify_meaning};
ghost use Rattle.evidence.specs.Lists.{Each};
ghost use Rattle.evidence.specs.Run.{records_of};
ghost use Rattle.marks.specs.Run.{entries_of};
ghost use Rattle.verify.specs.Judged.{judged_meaning};

use coverage::target_covered;
use evidence::EvidenceRecords;
use layout::{Target, tables};
use marks::PackedEntries;
use model::{EVIDENCE_BYTES, Refusal, Verified};
use records::target_true;
use soundness::target_sound;

// 17: is every record true, and none broken?
fn records_true(cat: &[u8], bytes: &[u8], records: EvidenceRecords) -> bool
    requires { Accepted cat.now × (records_of records ≡ records_held bytes.now) }
    ensures { (result ≡ true) ↔ TrueRecords cat.now bytes.now }
{
    if bytes.len() % EVIDENCE_BYTES != 0 {
        return false;
    }
    let end = u32::from(tables(cat));
    if !records::all_known(records, end) {
        return false;
    }
    (0..end).all(
        |table|
            requires { Accepted cat.now × (table < tables_of cat.now) }
        { target_true(Target { cat, table }, records) },
    )
}

// 18: is every entry sound?
fn entries_sound(cat: &[u8], list: PackedEntries) -> bool
    requires { Accepted cat.now }
    ensures { (result ≡ true) ↔ SoundEntries cat.now (entries_of list.entry) }
{
    let end = u32::from(tables(cat));
    if !soundness::all_known(list, end) {
        return false;
    }
    (0..end).all(
        |table|
            requires { Accepted cat.now × (table < tables_of cat.now) }
        { target_sound(Target { cat, table }, list) },
    )
}

// 19: is every backed set covered, where all entries are sound and all records true?
fn sets_covered(cat: &[u8], list: PackedEntries, records: EvidenceRecords) -> bool
    requires { Accepted cat.now × SoundEntries cat.now (entries_of list)
        × Each (TrueRecord cat.now) (records_of records) }
    ensures { (result ≡ true) ↔ CoveredSets cat.now (entries_of list.entry) (records_of records.entry) }
{
    let end = u32::from(tables(cat));
    (0..end).all(
        |table|
            requires { Accepted cat.now × (table < tables_of cat.now) × SoundEntries cat.now (entries_of list)
                × Each (TrueRecord cat.now) (records_of records) }
        { target_covered(Target { cat, table }, list, records) },
    )
}

// What is answered where neither the catalogue nor the list is refused: 17 over all records, then 18 over all entries,
// then 19.
fn judged(cat: &[u8], list: PackedEntries, bytes: &[u8]) -> Result<Verified, Refusal>
    requires { Accepted cat.now }
    ensures { verify_reply result ≡ judged_meaning cat.now (entries_of list.entry) bytes.now }
{
    let records = EvidenceRecords::of(bytes);
    if !records_true(cat, bytes, records) {
        return Err(Refusal::FalseRecord);
    }
    if !entries_sound(cat, list) {
        return Err(Refusal::UnsoundEntry);
    }
    if !sets_covered(cat, list, records) {
        return Err(Refusal::UncoveredSet);
    }
    Ok(Verified {
        entries: list.count,
        records: records.count,
    })
}

// Do these evidence records show that the packed list that ends a file is the full listing of the catalogue? It answers
// how many entries and how many records were accepted.
pub fn verify(cat: &[u8], list: &[u8], evidence: &[u8]) -> Result<Verified, Refusal>
    ensures { verify_reply result
        ≡ verify_meaning cat.now list.now evidence.now }
{
    grounds::check(cat)?;
    let opened = packed::open(list)?;
    let entries = PackedEntries {
        file: list,
        first: opened.front,
        count: opened.entries,
    };
    judged(cat, entries, evidence)
}
