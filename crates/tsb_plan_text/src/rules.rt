//! How a rule is named.
ghost use Rattle.std.specs.Prelude.{◌≡◌, ◌≤◌, length};
ghost use Rattle.tsb_plan_text.specs.RuleLines.{rule_line};

use tsb_objects::Rule;

/// The line that names a rule, without its end: `rule K1` to `rule K29`.
pub fn rule_line(rule: Rule) -> &'static str
    ensures line { result.now ≡ rule_line rule }
    ensures short { length result.now ≤ 11 }
{
    match rule {
        Rule::K1 => "rule K1",
        Rule::K2 => "rule K2",
        Rule::K3 => "rule K3",
        Rule::K4 => "rule K4",
        Rule::K5 => "rule K5",
        Rule::K6 => "rule K6",
        Rule::K7 => "rule K7",
        Rule::K8 => "rule K8",
        Rule::K9 => "rule K9",
        Rule::K10 => "rule K10",
        Rule::K11 => "rule K11",
        Rule::K12 => "rule K12",
        Rule::K13 => "rule K13",
        Rule::K14 => "rule K14",
        Rule::K15 => "rule K15",
        Rule::K16 => "rule K16",
        Rule::K17 => "rule K17",
        Rule::K18 => "rule K18",
        Rule::K19 => "rule K19",
        Rule::K20 => "rule K20",
        Rule::K21 => "rule K21",
        Rule::K22 => "rule K22",
        Rule::K23 => "rule K23",
        Rule::K24 => "rule K24",
        Rule::K25 => "rule K25",
        Rule::K26 => "rule K26",
        Rule::K27 => "rule K27",
        Rule::K28 => "rule K28",
        Rule::K29 => "rule K29",
    }
}
