// The plan printer's text: reads its line, makes the plan of the held design, and renders it into lent bytes.
#![tactic(auto)]

ghost use Rattle.std.specs.Prelude.{◌≡◌, ◌++◌, ◌*◌, ◌≤◌, length, drop};
ghost use Rattle.refusal.specs.Refusal.{answer, kept, outcome_of};
ghost use Rattle.held.specs.Held.{set_for, held_design};
ghost use Rattle.planning.specs.Plan.{triples_of, planned};
ghost use Rattle.printing.specs.Shown.{shelf, room, show_rules, answered, refused_text, answer_text, shown};

use geometry::{Disk, Geometry};
use lines::Question;
use refusal::Refusal;

// Puts a word at the front of the text.
fn put_word(word: &[u8], text: &mut [u8]) -> usize
    requires { length word.now ≤ length text.old }
    ensures { (result ≡ length word.now) × (text.new ≡ word.now ++ drop result text.old) }
{
    text[..word.len()].copy_from_slice(word);
    word.len()
}

// "A refusal prints `refused`, a space and its number" (01).
fn put_refused(number: u32, text: &mut [u8]) -> usize
    requires { 18000 ≤ length text.old }
    ensures { (result ≡ length (refused_text number)) × (text.new ≡ refused_text number ++ drop result text.old) }
{
    let at = put_word(b"refused ", text);
    at + decimals::put_number(&mut text[at..], number, b'\n')
}

// 01: "takes the held set of v and u = 1": the plan of the held design, which is put into the lent list, or the refusal.
fn plan_held(q: Question, k: usize, design: &mut [u16], list: &mut [u32]) -> Result<u32, Refusal>
    requires { (k ≡ length (set_for q.v)) × (length design.old ≡ length (held_design q.v)) × (length list.old ≡ room) }
    ensures { (outcome_of result ≡ answer (show_rules q) (triples_of (shelf q))) × (list.new ≡ kept (answer (show_rules q) (triples_of (shelf q))) (planned (shelf q) (held_design q.v) q.disk list.old) list.old) }
{
    held::fill(q.v, design)?;
    let geometry = Geometry {
        v: q.v,
        k: k as u32,
        g: q.g,
        u: 1,
    };
    planning::plan(geometry, design, Disk(q.disk), list)
}

// The same with a list of its own for the design: b·k numbers, which are v·k, 910 at most, and none where no set is held.
fn plan_asked(q: Question, list: &mut [u32]) -> Result<u32, Refusal>
    requires { length list.old ≡ room }
    ensures { (outcome_of result ≡ answer (show_rules q) (triples_of (shelf q))) × (list.new ≡ kept (answer (show_rules q) (triples_of (shelf q))) (planned (shelf q) (held_design q.v) q.disk list.old) list.old) }
{
    let mut numbers = [0; 910];
    let k = held::set_size(q.v);
    let end = (q.v as usize) * k;
    plan_held(q, k, &mut numbers[..end], list)
}

// The text of the plan, which has 3600 numbers at most, or of the refusal.
fn show_answer(q: Question, text: &mut [u8]) -> usize
    requires { 18000 ≤ length text.old }
    ensures { (result ≡ length (answer_text (answered q))) × (text.new ≡ answer_text (answered q) ++ drop result text.old) }
{
    let mut list = [0; 3600];
    let planned = plan_asked(q, &mut list);
    match planned {
        Err(x) => put_refused(x.number(), text),
        Ok(n) => {
            let end = 3 * n as usize;
            decimals::render(&list[..end], text)
        }
    }
}

// What the plan printer prints for a line (01), at the front of the text. Returns how many bytes it is; the rest of the text stays.
pub fn show(line: &[u8], text: &mut [u8]) -> usize
    requires { 18000 ≤ length text.old }
    ensures { (result ≡ length (shown line.now)) × (text.new ≡ shown line.now ++ drop result text.old) }
{
    match lines::parse(line) {
        None => put_word(b"unread\n", text),
        Some(q) => show_answer(q, text),
    }
}
