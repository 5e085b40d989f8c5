//! The first cells of the desk: the owner, the state, the rule that a check found broken, and how many edits there are.
ghost use Rattle.std.specs.Prelude.{◌≡◌, ◌≢◌, ◌≤◌, Some};
ghost use Rattle.tsb_transact.specs.Cells.{nth_rule, rules, rule_cell};

use tsb_objects::Rule;

/// The cell of the owner: the station's number, 0 for none.
pub const OWNER: usize = 0;

/// The cell of the state: 0 Normal, and the three below.
pub const STATE: usize = 1;

/// The cell of the rule that is kept: its number, 0 for none.
pub const RULE: usize = 2;

/// The cell that says how many edits there are. After it each edit has two cells, for its place and its value.
pub const COUNT: usize = 3;

/// The state Transaction in its cell.
pub const TRANSACTION: u32 = 1;

/// The state Verify in its cell.
pub const VERIFY: u32 = 2;

/// The state Done in its cell.
pub const DONE: u32 = 3;

/// The rule of a number, 0 for none.
pub fn rule_of(number: u32) -> Option<Rule>
    requires { number ≤ 29 }
    ensures { result ≡ nth_rule rules number }
{
    match number {
        1 => Some(Rule::K1),
        2 => Some(Rule::K2),
        3 => Some(Rule::K3),
        4 => Some(Rule::K4),
        5 => Some(Rule::K5),
        6 => Some(Rule::K6),
        7 => Some(Rule::K7),
        8 => Some(Rule::K8),
        9 => Some(Rule::K9),
        10 => Some(Rule::K10),
        11 => Some(Rule::K11),
        12 => Some(Rule::K12),
        13 => Some(Rule::K13),
        14 => Some(Rule::K14),
        15 => Some(Rule::K15),
        16 => Some(Rule::K16),
        17 => Some(Rule::K17),
        18 => Some(Rule::K18),
        19 => Some(Rule::K19),
        20 => Some(Rule::K20),
        21 => Some(Rule::K21),
        22 => Some(Rule::K22),
        23 => Some(Rule::K23),
        24 => Some(Rule::K24),
        25 => Some(Rule::K25),
        26 => Some(Rule::K26),
        27 => Some(Rule::K27),
        28 => Some(Rule::K28),
        29 => Some(Rule::K29),
        _ => None,
    }
}

/// The number of a rule, 1 to 29.
pub fn rule_number(rule: Rule) -> u32
    ensures cell { result ≡ rule_cell (Some rule) }
    ensures back { nth_rule rules result ≡ Some rule }
    ensures within { result ≤ 29 }
{
    match rule {
        Rule::K1 => 1,
        Rule::K2 => 2,
        Rule::K3 => 3,
        Rule::K4 => 4,
        Rule::K5 => 5,
        Rule::K6 => 6,
        Rule::K7 => 7,
        Rule::K8 => 8,
        Rule::K9 => 9,
        Rule::K10 => 10,
        Rule::K11 => 11,
        Rule::K12 => 12,
        Rule::K13 => 13,
        Rule::K14 => 14,
        Rule::K15 => 15,
        Rule::K16 => 16,
        Rule::K17 => 17,
        Rule::K18 => 18,
        Rule::K19 => 19,
        Rule::K20 => 20,
        Rule::K21 => 21,
        Rule::K22 => 22,
        Rule::K23 => 23,
        Rule::K24 => 24,
        Rule::K25 => 25,
        Rule::K26 => 26,
        Rule::K27 => 27,
        Rule::K28 => 28,
        Rule::K29 => 29,
    }
}
