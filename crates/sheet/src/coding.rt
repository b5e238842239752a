// A good sheet is coded into the lent arrays: the costs; all entries in one run of codes; the starts of the rules. A code is a number and no
// value with cases, and a rule a stretch of the run and no list of its own: there is no heap, and a walk goes through them at every node.
ghost use Rattle.std.specs.Prelude.{◌≡◌, ◌+◌, ◌≤◌, length};
ghost use Rattle.std.proofs.lemmas.List.Edits.{sets};
ghost use Rattle.sheet.specs.Word.{numbers_from, codes_from};
ghost use Rattle.sheet.specs.Placed.{RulesStand, RulesRoom, CodesRoom, RulesPut};

use crate::word::{code_at, value_at};

// The costs, device 1 first.
#[tactic(auto, using(crate::proofs::Placing::run_laws))]
pub(crate) fn put_costs(words: &[i32], n: usize, costs: &mut [u32])
    requires { n ≤ length costs.old }
    ensures { costs.new ≡ sets costs.old 0 (numbers_from words.now 1 n) }
{
    for i in 0..n {
        costs[i] = value_at(words, i + 1);
    }
}

// The entries of one rule, as codes.
#[tactic(auto, using(crate::proofs::Placing::run_laws))]
fn put_entries(words: &[i32], at: usize, width: usize, n: u8, first: usize, codes: &mut [u16])
    requires { CodesRoom at width n first codes.old }
    ensures { codes.new ≡ sets codes.old first (codes_from n words.now at width) }
{
    for i in 0..width {
        codes[first + i] = code_at(words, at + i, n);
    }
}

// The rules of a good sheet of n devices: rule by rule its start, and its entries' codes behind those of the rule before.
pub(crate) fn put_rules(words: &[i32], n: usize, m: usize, codes: &mut [u16], starts: &mut [u16])
    requires rules_stand { RulesStand n words.now (n + 2) m }
    requires rules_room { RulesRoom words.now m codes.old starts.old }
    ensures { RulesPut n words.now (n + 2) m codes.old starts.old codes.new starts.new }
{
    let mut place = n + 2;
    let mut first: usize = 0;
    for r in 0..m {
        starts[r] = first as u16;
        let width = value_at(words, place) as usize;
        put_entries(words, place + 1, width, n as u8, first, codes);
        place = place + 1 + width;
        first += width;
    }
    starts[m] = first as u16;
}
