//! The rules of findings, each once.

ghost use Rattle.std.specs.Prelude.{◌≡◌, IfOk, OnOk, map, string_bytes};
ghost use Rattle.std.specs.List.{list_any};
ghost use Rattle.cargo_lock_report.specs.Rules as spec;
ghost use Rattle.cargo_lock_report.specs.Rules.{is_rule_of, listed_rule, with_rule};

use crate::reported::{Reported, Rule};
use std::alloc::{AllocError, Global};

/// A rule of some finding.
#[derive(Clone, Copy)]
pub(crate) struct ListedRule<'a>(pub(crate) &'a Rule);

/// The rules of findings, in the order in which they come first. Fails when out of memory.
pub(crate) fn rules_of(
    alloc: Global,
    findings: &[Reported],
) -> Result<Vec<ListedRule<'_>>, AllocError>
    ensures { IfOk result (λ rules. map listed_rule rules.items ≡ spec.rules_of findings.now) }
{
    let mut rules = Vec::new(alloc);
    for finding in findings {
        put_rule(&mut rules, &finding.rule)?;
    }
    Ok(rules)
}

// Adds a rule, unless one of its id is there.
fn put_rule<'a>(rules: &mut Vec<ListedRule<'a>>, rule: &'a Rule) -> Result<(), AllocError>
    ensures { OnOk result (map listed_rule rules.new.items
        ≡ with_rule (map listed_rule rules.old.items) rule.now) }
{
    if !has_rule(rules.as_slice(), &rule.id) {
        rules.push(ListedRule(rule))?;
    }
    Ok(())
}

// Whether a rule of this id is among these.
fn has_rule(rules: &[ListedRule<'_>], id: &str) -> bool
    ensures { result ≡ spec.has_rule (map listed_rule rules.now) id.now }
{
    is_one_of(rules, id)
}

// The same, as a test of each rule.
fn is_one_of(rules: &[ListedRule<'_>], id: &str) -> bool
    ensures { result ≡ list_any (λ r. is_rule_of id.now (listed_rule r)) rules.now }
{
    rules.iter().any(|rule| is_of(rule, id))
}

// Whether a rule has this id.
fn is_of(rule: &ListedRule<'_>, id: &str) -> bool
    ensures { result ≡ is_rule_of id.now (listed_rule rule.now) }
{
    let ListedRule(rule) = *rule;
    rule.id.as_str() == id
}
