// The check of prologues that others send.
#![tactic(auto)]

ghost use Rattle.std.specs.Prelude.{not, map, ◌≡◌, ◌<◌, ◌≤◌, eqb, length, IfOk, IfSome, unwrap_or};
ghost use Rattle.frame.specs.Frame.{frame_most, frame_of};
ghost use Rattle.frame.specs.Words.{saves_of, store_word};
ghost use Rattle.frame.specs.Keeping.{words_in};
ghost use Rattle.prologues.specs.Checking.{are_stores, checked, count, first_wrong, instructions, is_opened, verdict_on};
ghost use Rattle.prologues.specs.Verdict.{RegisterInRange, finding_number, verdict_in_numbers};
ghost use Rattle.prologues_code.specs.Stores.{first_word, floating_store, general_store, register_in, store_of};

use answers::Cause;
use device::Device;
use frame::Request;
use frame_code::Saves;
use prologues::Finding;

// The store of general register k at its place, where it is saved. That of a floating one is found by its pair and its half: one function
// for both would be passed where the area starts, the bit and the bytes of each.
#[tactic(auto, unfolding(crate::specs::Stores::general_store))]
fn general_store(saves: Saves, k: u32) -> Option<u32>
    requires { k < 32 }
    ensures { result ≡ general_store saves.request k }
{
    let mask = saves.request.general;
    if !frame_words::is_named(mask, k) {
        return None;
    }
    let offset = saves.frame.general + 4 * frame_words::count_below(mask, k);
    Some(frame_words::word(0xAFA0_0000, k, offset))
}

// The store of floating register n at its place, where its pair is saved.
#[tactic(auto, unfolding(crate::specs::Stores::floating_store))]
fn floating_store(saves: Saves, n: u32) -> Option<u32>
    requires { n < 32 }
    ensures { result ≡ floating_store saves.request n }
{
    let mask = saves.request.pairs;
    if n < 20 {
        return None;
    }
    let pair = (n - 20) / 2;
    if !frame_words::is_named(mask, pair) {
        return None;
    }
    let offset = saves.frame.floating + 8 * frame_words::count_below(mask, pair) + 4 * (n % 2);
    Some(frame_words::word(0xE7A0_0000, n, offset))
}

// The store of register k at its place, where it is saved; a floating register's number is 32 more.
#[tactic(auto, unfolding(crate::specs::Stores::store_of))]
fn store_of(saves: Saves, k: u32) -> Option<u32>
    requires { k < 64 }
    ensures { result ≡ store_of saves.request k }
{
    if k < 32 {
        general_store(saves, k)
    } else {
        floating_store(saves, k - 32)
    }
}

// The number of the register that a store names.
fn register_in(word: u32) -> u32
    ensures { result ≡ register_in word }
{
    let number = word / 65536 % 32;
    if word < 0xE000_0000 {
        number
    } else {
        32 + number
    }
}

// Whether a word is a saved register's store at its place. The word itself says which register that is.
fn is_store(saves: Saves, word: u32) -> bool
    ensures { result ≡ not (eqb (count word (map store_word (saves_of saves.request))) 0) }
{
    store_of(saves, register_in(word)) == Some(word)
}

// The code is a part of what was given, so it is no field of `Saves` in the functions below.

// Whether the words of code are stores and 00000000 only.
fn has_only_stores(saves: Saves, code: &[u8]) -> bool
    ensures { result ≡ are_stores (map store_word (saves_of saves.request)) (instructions (words_in code.now)) }
{
    for i in 0..code.len() / 4 {
        let word = words::word_at(code, 4 * i);
        if word != 0 && !is_store(saves, word) {
            return false; // another word
        }
    }
    true
}

// The first word of a prologue, `addiu $sp,$sp,-f`, where there is a frame.
fn first_word(f: u32) -> Option<u32>
    requires { f ≤ frame_most }
    ensures { result ≡ first_word f }
{
    if f == 0 {
        None
    } else {
        Some(frame_words::lower_sp(f))
    }
}

// Whether the first word of code that is not 00000000 is the first word of the prologue, and all after it are stores and 00000000.
fn is_opened(saves: Saves, code: &[u8]) -> bool
    ensures { result ≡ is_opened (frame_of saves.request) (map store_word (saves_of saves.request)) (instructions (words_in code.now)) }
{
    let first = first_word(saves.frame.frame);
    for i in 0..code.len() / 4 {
        let word = words::word_at(code, 4 * i);
        if word != 0 { // the first instruction
            return Some(word) == first && has_only_stores(saves, &code[4 * i + 4..]);
        }
    }
    first.is_none()
}

// The first saved register whose store is missing or doubled. No register below $16 is ever saved, so none is looked for there.
fn first_wrong(saves: Saves, code: &[u8]) -> Option<u32>
    ensures first { unwrap_or result 0 ≡ first_wrong (saves_of saves.request) (words_in code.now) }
    ensures range { IfSome result (λ k. (16 ≤ k) × (k < 64)) }
{
    let mut wrong = None;
    'registers: for k in 16..64 {
        if let Some(store) = store_of(saves, k) {
            let mut stored = false;
            for i in 0..code.len() / 4 {
                if words::word_at(code, 4 * i) == store {
                    if stored {
                        wrong = Some(k);
                        break 'registers;
                    }
                    stored = true;
                }
            }
            if !stored {
                wrong = Some(k);
                break 'registers;
            }
        }
    }
    wrong
}

// What is found in code of a right length.
#[tactic(auto, unfolding(prologues::specs::Checking::verdict_on))]
fn judge(saves: Saves, code: &[u8]) -> Finding
    ensures verdict { finding_number result ≡ verdict_on (frame_of saves.request) (saves_of saves.request) (words_in code.now) }
    ensures register { RegisterInRange result }
{
    if !is_opened(saves, code) {
        return Finding::OtherWord;
    }
    match first_wrong(saves, code) {
        Some(k) => Finding::Register(k),
        None => Finding::Accepted,
    }
}

// Whether code is a prologue for a request on a device, and what is wrong where it is not. Refusals 9, 14, 10, 11 and 12, then 21.
#[tactic(auto, using(frame_code::proofs::Answers::answered_accepted), unfolding(prologues::specs::Checking::checked))]
pub fn check_prologue(device: Device, request: Request, code: &[u8]) -> Result<Finding, Cause>
    ensures answer { verdict_in_numbers result ≡ checked device request code.now }
    ensures register { IfOk result RegisterInRange }
{
    let frame = frame_code::layout_of(device, request)?;
    if code.len() % 4 != 0 || code.len() > 256 {
        return Err(Cause::CodeLength);
    }
    Ok(judge(Saves { request, frame }, code))
}
