// The public calls for C and other languages: numbers and slices, a refusal as its number made negative.
// Relies on every crate whose call it hands on, and on `numbers` for the number of an answer. Called by host
// programs; include/cagberin.h declares it.
#![tactic(auto)]

ghost use Rattle.std.specs.Prelude.{ℕ, ◌≡◌, negsuc, length};
ghost use Rattle.model.specs.Reply.{words_after};
ghost use Rattle.model.specs.Check.{check_meaning};
ghost use Rattle.model.specs.Question.{question_code, ask_meaning, pair_meaning};
ghost use Rattle.model.specs.List.{ListMeaning};
ghost use Rattle.model.specs.Packing.{pack_meaning, output_after};
ghost use Rattle.model.specs.Reading.{open_meaning, read_meaning, run_read};
ghost use Rattle.model.specs.Verify.{verify_meaning};
ghost use Rattle.model.specs.Convert.{convert_meaning, converted_output};
ghost use Rattle.model.specs.Calls.{seen};
ghost use Rattle.numbers.specs.Number.{number_of, value_or, status_of, found_of, list_seen};

use model::Entry;

// 0 for a catalogue, with its tables and the sets over all targets; the two are written only then.
#[unsafe(no_mangle)]
pub extern "C" fn cagberin_check(cat: &[u8], tables: &mut u32, sets: &mut u32) -> i32
    ensures value { result ≡ status_of (check_meaning cat.now) }
    ensures tables_after { tables.new ≡ value_or 0 tables.old (check_meaning cat.now) }
    ensures sets_after { sets.new ≡ value_or 1 sets.old (check_meaning cat.now) }
{
    match catalogue::check(cat) {
        Ok(c) => {
            *tables = c.tables;
            *sets = c.sets;
            0
        }
        Err(r) => numbers::negative(r),
    }
}

// 1 if the left side gives the right in the target table, 0 if two rows break it. Every work word is 0 after an answer.
#[unsafe(no_mangle)]
pub extern "C" fn cagberin_ask(
    cat: &[u8],
    target: u32,
    left: u32,
    right: u32,
    work: &mut [u32],
) -> i32
    ensures value { result ≡ number_of 0 (ask_meaning cat.now target left right (length work.old)) }
    ensures work_after { work.new
        ≡ words_after (question_code cat.now target left right (length work.old))
        work.old }
{
    match dependency::ask(cat, target, left, right, work) {
        Ok(true) => 1,
        Ok(false) => 0,
        Err(r) => numbers::negative(r),
    }
}

// 1 with the first breaking pair (lowest first row, then lowest second row), or 0 where the dependency holds; the two
// rows are written only with 1. The work words as above.
#[unsafe(no_mangle)]
pub extern "C" fn cagberin_pair(
    cat: &[u8],
    target: u32,
    left: u32,
    right: u32,
    work: &mut [u32],
    first: &mut u32,
    second: &mut u32,
) -> i32
    ensures value { result ≡ found_of (pair_meaning cat.now target left right (length work.old)) }
    ensures first_after { first.new
        ≡ value_or 0 first.old
        (pair_meaning cat.now target left right (length work.old)) }
    ensures second_after { second.new
        ≡ value_or 1 second.old
        (pair_meaning cat.now target left right (length work.old)) }
    ensures work_after { work.new
        ≡ words_after (question_code cat.now target left right (length work.old))
        work.old }
{
    match dependency::pair(cat, target, left, right, work) {
        Ok(Some(rows)) => {
            *first = rows.first;
            *second = rows.second;
            1
        }
        Ok(None) => 0,
        Err(r) => numbers::negative(r),
    }
}

// The number of entries of the packed list that ends a file, with the number of bytes in front of it, which is
// written only then.
#[unsafe(no_mangle)]
pub extern "C" fn cagberin_open(file: &[u8], front: &mut usize) -> i64
    ensures value { result ≡ number_of 0 (open_meaning file.now) }
    ensures front_after { front.new ≡ value_or 1 front.old (open_meaning file.now) }
{
    match packed::open(file) {
        Ok(o) => {
            *front = o.front;
            i64::from(o.entries)
        }
        Err(r) => i64::from(numbers::negative(r)),
    }
}

// Reads entries of the packed list that ends a file, from an index on, as many as the run has records: the number of
// entries, which stand at the start of the run; 0 behind the last. The other records are untouched, and a refusal
// alters none.
#[unsafe(no_mangle)]
pub extern "C" fn cagberin_read(file: &[u8], from: usize, run: &mut [Entry]) -> i64
    ensures { (result ≡ number_of 0 (read_meaning file.now from (length run.old)))
        × (run.new ≡ run_read file.now from run.old) }
{
    let answer = packed::read(file, from, run);
    numbers::count_number(answer)
}

// Lists from a place on: the number of entries, which stand at the start of the run, with the place reached and the
// sets passed. Every work word is 0 after an answer and after refusal 13. A refusal alters nothing else.
#[unsafe(no_mangle)]
pub extern "C" fn cagberin_list(
    cat: &[u8],
    place: u32,
    budget: u32,
    run: &mut [Entry],
    work: &mut [u32],
    reached: &mut u32,
    passed: &mut u32,
) -> i64
    ensures { ListMeaning cat.now
        (seen place budget run.old work.old
        (list_seen result reached.new passed.new)
        run.new work.new) × ((n : ℕ) → result ≡ negsuc n
        → (reached.new ≡ reached.old) × (passed.new ≡ passed.old)) }
{
    let answer = listing::list(cat, place, budget, run, work);
    numbers::list_number(answer, reached, passed)
}

// Packs entries into an output: the number of bytes written from its start. A refusal writes nothing.
#[unsafe(no_mangle)]
pub extern "C" fn cagberin_pack(entries: &[Entry], out: &mut [u8]) -> i64
    ensures { (result ≡ number_of 0 (pack_meaning entries.now (length out.old)))
        × (out.new ≡ output_after entries.now out.old) }
{
    let answer = packed::pack(entries, out);
    numbers::count_number(answer)
}

// The number of entries of the packed list that ends a file, if these evidence records show that it is the full listing
// of the catalogue. Nothing is written.
#[unsafe(no_mangle)]
pub extern "C" fn cagberin_verify(cat: &[u8], list: &[u8], evidence: &[u8]) -> i64
    ensures { result ≡ number_of 0 (verify_meaning cat.now list.now evidence.now) }
{
    match verify::verify(cat, list, evidence) {
        Ok(v) => i64::from(v.entries),
        Err(r) => i64::from(numbers::negative(r)),
    }
}

// Converts a supplier's text into a catalogue, by a shape: the number of bytes written from the start of the output. A
// refusal writes nothing.
#[unsafe(no_mangle)]
pub extern "C" fn cagberin_convert(shape: &[u8], text: &[u8], out: &mut [u8]) -> i64
    ensures value { result
        ≡ number_of 0 (convert_meaning shape.now text.now (length out.old)) }
    ensures out_after { out.new ≡ converted_output shape.now text.now out.old }
{
    match convert::convert(shape, text, out) {
        Ok(bytes) => i64::from(bytes),
        Err(r) => i64::from(numbers::negative(r)),
    }
}
