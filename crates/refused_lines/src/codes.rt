//! The code of a broken rule.

ghost use Rattle.std.specs.Prelude.{◌≡◌};
ghost use Rattle.refused_lines.specs.Refusals as spec;

use ir_rules::Rule;

/// Returns the name of a rule.
pub(crate) fn rule_code(rule: Rule) -> &'static str
    ensures { result.now ≡ spec.rule_code rule }
{
    match rule {
        Rule::DoubleName => "DoubleName",
        Rule::NumberOrder => "NumberOrder",
        Rule::UnknownType => "UnknownType",
        Rule::RecursiveType => "RecursiveType",
        Rule::TypeTooLarge => "TypeTooLarge",
        Rule::ScalarWanted => "ScalarWanted",
        Rule::UnknownName => "UnknownName",
        Rule::TypeDiffers => "TypeDiffers",
        Rule::LiteralRange => "LiteralRange",
        Rule::UnknownLabel => "UnknownLabel",
        Rule::PhiPlace => "PhiPlace",
        Rule::PhiEntries => "PhiEntries",
        Rule::BlockOpen => "BlockOpen",
        Rule::UnknownCallee => "UnknownCallee",
        Rule::CallDiffers => "CallDiffers",
        Rule::ReturnDiffers => "ReturnDiffers",
        Rule::SwitchCase => "SwitchCase",
        Rule::GetPath => "GetPath",
        Rule::ResultName => "ResultName",
        Rule::InitDiffers => "InitDiffers",
        Rule::EntryTarget => "EntryTarget",
        Rule::CastWidth => "CastWidth",
        Rule::DeclareDiffers => "DeclareDiffers",
        Rule::Limit => "Limit",
    }
}
