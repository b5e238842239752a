// The lines of the clauses, put on a page one behind the other: the rules, the pairs of variables of a device, the denials of a device's
// variables.
//
// A code is the number of its entry's variable, counted from 0; a text counts from 1.
ghost use Rattle.std.specs.Prelude.{[], ◌∷◌, ◌+◌, ◌<◌, map};
ghost use Rattle.hall.specs.Hall.{at0};
ghost use Rattle.sheet.specs.Coded.{entry_of};
ghost use Rattle.needed.specs.Rules.{hall_in};
ghost use Rattle.typed.specs.Printing.{digits_of};
ghost use Rattle.printing.specs.Lines.{printed_entries};
ghost use Rattle.printing.specs.Contract.{Puts};
ghost use Rattle.rails.specs.Rails.{in_variables, not_both, denials, pairs_from, denials_from, rule_clauses, encoded};
ghost use Rattle.wcnf.specs.Wcnf.{clause_line, clause_lines};

use needed::Coded;
use printing::Page;

// The variables of the entries of a rule, by their codes.
fn put_entries(codes: &[u16], page: &mut Page<'_>)
    ensures { Puts (printed_entries (in_variables (map entry_of codes.now))) page.old page.new }
{
    for code in codes {
        page.put_number(b" ", *code as u64 + 1);
    }
}

// The line of a rule.
fn put_rule(start: &[u8], codes: &[u16], page: &mut Page<'_>)
    ensures { Puts (clause_line start.now (in_variables (map entry_of codes.now))) page.old page.new }
{
    page.put(start);
    put_entries(codes, page);
    page.put(b" 0\n");
}

// The lines of all rules.
fn put_rules(start: &[u8], hall: Coded<'_>, page: &mut Page<'_>)
    ensures { Puts (clause_lines start.now (rule_clauses (hall_in hall.entry).rules)) page.old page.new }
{
    for r in 0..hall.rules {
        put_rule(start, hall.rule(r), page);
    }
}

// "per device, that not both are true".
fn put_pair(start: &[u8], device: usize, page: &mut Page<'_>)
    requires { device < 200 }
    ensures { Puts (clause_line start.now (not_both device)) page.old page.new }
{
    page.put(start);
    page.put_number(b" -", (2 * device + 1) as u64);
    page.put_number(b" -", (2 * device + 2) as u64);
    page.put(b" 0\n");
}

// That for each device.
fn put_pairs(start: &[u8], hall: Coded<'_>, page: &mut Page<'_>)
    ensures { Puts (clause_lines start.now (pairs_from 0 hall.entry.costs.now)) page.old page.new }
{
    for device in 0..hall.costs.len() {
        put_pair(start, device, page);
    }
}

// "soft clauses deny each variable at the device's cost".
fn put_denial(cost: u32, variable: usize, page: &mut Page<'_>)
    requires { variable < 400 }
    ensures { Puts (clause_line (digits_of cost) (at0 variable ∷ [])) page.old page.new }
{
    page.put_number(b"", cost as u64);
    page.put_number(b" -", (variable + 1) as u64);
    page.put(b" 0\n");
}

// The two of a device: "A cost of 0 gives no soft clause".
fn put_denials(cost: u32, device: usize, page: &mut Page<'_>)
    requires { device < 200 }
    ensures { Puts (clause_lines [] (denials cost device)) page.old page.new }
{
    if cost > 0 {
        put_denial(cost, 2 * device, page);
        put_denial(cost, 2 * device + 1, page);
    }
}

// Those of all devices.
fn put_costs(hall: Coded<'_>, page: &mut Page<'_>)
    ensures { Puts (clause_lines [] (denials_from 0 hall.entry.costs.now)) page.old page.new }
{
    for (device, cost) in hall.costs.iter().enumerate() {
        put_denials(*cost, device, page);
    }
}

// All clauses of a hall, the hard ones behind what starts them.
pub(crate) fn put_clauses(start: &[u8], hall: Coded<'_>, page: &mut Page<'_>)
    ensures { Puts (clause_lines start.now (encoded (hall_in hall.entry).rules hall.entry.costs.now)) page.old page.new }
{
    put_rules(start, hall, page);
    put_pairs(start, hall, page);
    put_costs(hall, page);
}
