//! What is allowed, and of which packages the licence is given.

ghost use Rattle.std.specs.Prelude.{◌≡◌, ◌++◌, ◌↔◌, IfOk, IsTrue, OnOk, map, option_map};
ghost use Rattle.std.specs.Prelude.{string_bytes};
ghost use Rattle.std.specs.List.{find, list_any};
ghost use Rattle.semver.specs.Identifiers.{parts_of};
ghost use Rattle.cargo_lock_references.specs.Reference as reference;
ghost use Rattle.cargo_lock_references.specs.ResolutionSearch.{has_version};
ghost use Rattle.cargo_lock_licenses.specs.Grammar.{IsExpression, Tree};
ghost use Rattle.cargo_lock_licenses.specs.Policy.{ReadsExemption, ReadsGiven, cut_at, exempt_if};
ghost use Rattle.cargo_lock_licenses.specs.Policy.{exempt_terms, exemption_of, exempts};
ghost use Rattle.cargo_lock_licenses.specs.Policy.{expression_for, given_of, gives, is_at_sign};
ghost use Rattle.cargo_lock_licenses.specs.Policy.{is_equals_sign, is_exempt, pinned, pinned_at};
ghost use Rattle.cargo_lock_licenses.specs.Policy.{policy_of};
ghost use Rattle.cargo_lock_licenses.specs.Policy.{terms_for, versioned, versioned_at};

use crate::expression::Expression;
use crate::terms::is_term;
use cargo_lock_parts::error::Error;
use cargo_lock_parts::package::{Package, Version};
use cargo_lock_references::package_version::{same_version, version_of};
use std::alloc::{AllocError, Global};

/// What is allowed, and of which packages the licence is given.
#[derive(Drop)]
pub struct Policy {
    /// The terms that are allowed for each package. Without one each expression is allowed.
    pub allowed: Vec<String>,

    /// The expressions that stand in place of what manifests say. Of several for a package the first
    /// counts.
    pub given: Vec<Given>,

    /// The terms that are allowed for some packages alone.
    pub exemptions: Vec<Exemption>,
}

/// An expression that is given for the packages of a name and a version.
#[derive(Drop)]
pub struct Given {
    /// The words that say so.
    pub words: String,

    /// The name.
    pub name: String,

    /// The version.
    pub version: Version,

    /// The expression.
    pub expression: String,
}

/// A term that is allowed for the packages of a name.
#[derive(Drop)]
pub struct Exemption {
    /// The words that say so.
    pub words: String,

    /// The name.
    pub name: String,

    /// The version, or `None` for all.
    pub version: Option<Version>,

    /// The term.
    pub term: String,
}

impl Given {
    /// What is given by words `NAME@VERSION=EXPRESSION`, or `None` if they are no such words. Fails
    /// when out of memory.
    ///
    /// ```
    /// let given = Given::parse(alloc, "ring@0.16.20=ISC AND OpenSSL")?;
    /// ```
    pub fn parse(alloc: Global, words: &str) -> Result<Option<Given>, AllocError>
        ensures { IfOk result (λ given. ReadsGiven words.now (option_map given_of given)) }
    {
        let Some((package, expression)) = cut_at_equals_sign(words) else {
            return Ok(None);
        };
        let Some((name, version)) = versioned(alloc, package)? else {
            return Ok(None);
        };
        if !is_expression(alloc, expression)? {
            return Ok(None);
        }
        Ok(Some(Given {
            words: String::from_str(alloc, words)?,
            name,
            version,
            expression: String::from_str(alloc, expression)?,
        }))
    }

    /// Whether it is given for a package: the name and the version are its own.
    pub fn gives(&self, package: &Package) -> bool
        ensures { result ≡ gives «package».now (given_of self.now) }
    {
        package.name.as_str() == self.name.as_str() && same_version(&package.version, &self.version)
    }
}

impl Exemption {
    /// The exemption of words `NAME=TERM` or `NAME@VERSION=TERM`, or `None` if they are no such
    /// words. Fails when out of memory.
    ///
    /// ```
    /// let exemption = Exemption::parse(alloc, "webpki=LicenseRef-webpki")?;
    /// ```
    pub fn parse(alloc: Global, words: &str) -> Result<Option<Exemption>, AllocError>
        ensures { IfOk result
            (λ exemption. ReadsExemption words.now (option_map exemption_of exemption)) }
    {
        let Some((package, term)) = cut_at_equals_sign(words) else {
            return Ok(None);
        };
        let Some((name, version)) = pinned(alloc, package)? else {
            return Ok(None);
        };
        if !is_term(alloc, term)? {
            return Ok(None);
        }
        Ok(Some(Exemption {
            words: String::from_str(alloc, words)?,
            name,
            version,
            term: String::from_str(alloc, term)?,
        }))
    }

    /// Whether it is for a package: the name is its own, and so is the version, if there is one.
    pub fn exempts(&self, package: &Package) -> bool
        ensures { result ≡ exempts «package».now (exemption_of self.now) }
    {
        package.name.as_str() == self.name.as_str() && self.has_version(&package.version)
    }

    fn has_version(&self, version: &Version) -> bool
        ensures { result ≡ has_version (exemption_of self.now).version (parts_of version.now) }
    {
        match &self.version {
            Some(own) => same_version(version, own),
            None => true,
        }
    }
}

impl Policy {
    /// The expression that is given for a package.
    ///
    /// ```
    /// let expression = policy.expression_for(&package);
    /// ```
    pub fn expression_for(&self, package: &Package) -> Option<&String>
        ensures { option_map (λ e. string_bytes e.now) result
            ≡ expression_for (policy_of self.now) «package».now }
    {
        match first_given(&self.given, package) {
            Some(given) => Some(&given.expression),
            None => None,
        }
    }

    /// Whether an exemption is for a package.
    pub fn is_exempt(&self, package: &Package) -> bool
        ensures { result ≡ is_exempt (policy_of self.now) «package».now }
    {
        is_one_for(&self.exemptions, package)
    }

    /// The terms that are allowed for a package: those for all, and those of its exemptions. Where no
    /// term is allowed for all, there is none, and each is allowed. Fails when out of memory.
    pub fn terms_for(&self, alloc: Global, package: &Package) -> Result<Vec<String>, AllocError>
        ensures { IfOk result (λ terms. map string_bytes terms.items
            ≡ terms_for (policy_of self.now) «package».now) }
    {
        let mut terms = copies(alloc, &self.allowed)?;
        if !terms.is_empty() {
            put_exempt_terms(alloc, &mut terms, &self.exemptions, package)?;
        }
        Ok(terms)
    }
}

// The first expression that is given for a package.
fn first_given<'g>(given: &'g [Given], package: &Package) -> Option<&'g Given>
    ensures { option_map (λ g. given_of g.now) result
        ≡ find (gives «package».now) (map given_of given.now) }
{
    first_of(given, package)
}

// The same, as a test of each.
fn first_of<'g>(given: &'g [Given], package: &Package) -> Option<&'g Given>
    ensures { option_map (λ g. g.now) result
        ≡ find (λ g. gives «package».now (given_of g)) given.now }
{
    given.iter().find(|given| {
        let given: &Given = given;
        given.gives(package)
    })
}

// Whether one of these is for a package.
fn is_one_for(exemptions: &[Exemption], package: &Package) -> bool
    ensures { result ≡ list_any (λ x. exempts «package».now (exemption_of x)) exemptions.now }
{
    exemptions
        .iter()
        .any(|exemption| exemption.exempts(package))
}

// The same texts once more.
fn copies(alloc: Global, texts: &[String]) -> Result<Vec<String>, AllocError>
    ensures { IfOk result
        (λ copies. map string_bytes copies.items ≡ map string_bytes texts.now) }
{
    let mut copies = Vec::with_capacity(alloc, texts.len())?;
    for text in texts {
        copies.push(String::from_str(alloc, text)?)?;
    }
    Ok(copies)
}

// Adds the terms that exemptions allow for a package.
fn put_exempt_terms(
    alloc: Global,
    terms: &mut Vec<String>,
    exemptions: &[Exemption],
    package: &Package,
) -> Result<(), AllocError>
    ensures { OnOk result (map string_bytes terms.new.items ≡ map string_bytes terms.old.items
        ++ exempt_terms (map exemption_of exemptions.now) «package».now) }
{
    for exemption in exemptions {
        put_if_exempt(alloc, terms, exemption, package)?;
    }
    Ok(())
}

// Adds the term of an exemption, if it is for a package.
fn put_if_exempt(
    alloc: Global,
    terms: &mut Vec<String>,
    exemption: &Exemption,
    package: &Package,
) -> Result<(), AllocError>
    ensures { OnOk result (map string_bytes terms.new.items ≡ map string_bytes terms.old.items
        ++ exempt_if «package».now (exemption_of exemption.now)) }
{
    if exemption.exempts(package) {
        terms.push(String::from_str(alloc, &exemption.term)?)?;
    }
    Ok(())
}

// ---- words

// What is before and after the first `=` of words, if they have one.
fn cut_at_equals_sign(words: &str) -> Option<(&str, &str)>
    ensures { option_map (λ x. (x.0.now, x.1.now)) result ≡ cut_at is_equals_sign words.now }
{
    words.split_once('=')
}

// What is before and after the first `@` of a text, if it has one.
fn cut_at_at_sign(text: &str) -> Option<(&str, &str)>
    ensures { option_map (λ x. (x.0.now, x.1.now)) result ≡ cut_at is_at_sign text.now }
{
    text.split_once('@')
}

// The name and the version of a text `NAME@VERSION`, if it is one. Fails when out of memory.
fn versioned(alloc: Global, text: &str) -> Result<Option<(String, Version)>, AllocError>
    ensures { IfOk result (λ found. option_map (λ x. (string_bytes x.0, parts_of x.1)) found
        ≡ versioned text.now) }
{
    match cut_at_at_sign(text) {
        Some((name, version)) => named_version(alloc, name, version),
        None => Ok(None),
    }
}

// The name and the version that a text is, if it is one. Fails when out of memory.
fn named_version(
    alloc: Global,
    name: &str,
    version: &str,
) -> Result<Option<(String, Version)>, AllocError>
    ensures { IfOk result (λ found. option_map (λ x. (string_bytes x.0, parts_of x.1)) found
        ≡ option_map (versioned_at name.now) (reference.version_of version.now)) }
{
    match version_of(alloc, version) {
        Ok(version) => {
            let name = String::from_str(alloc, name)?;
            Ok(Some((name, version)))
        }
        Err(Error::Parse(_)) => Ok(None),
        Err(_) => Err(AllocError),
    }
}

// The name and the version of a text `NAME@VERSION` or `NAME`, if it is one. Fails when out of
// memory.
fn pinned(alloc: Global, text: &str) -> Result<Option<(String, Option<Version>)>, AllocError>
    ensures { IfOk result (λ found.
        option_map (λ x. (string_bytes x.0, option_map parts_of x.1)) found ≡ pinned text.now) }
{
    match cut_at_at_sign(text) {
        Some((name, version)) => pinned_to(alloc, name, version),
        None => {
            let name = String::from_str(alloc, text)?;
            Ok(Some((name, None)))
        }
    }
}

// The name and the version that a text is, if it is one, as a package may have it.
fn pinned_to(
    alloc: Global,
    name: &str,
    version: &str,
) -> Result<Option<(String, Option<Version>)>, AllocError>
    ensures { IfOk result (λ found.
        option_map (λ x. (string_bytes x.0, option_map parts_of x.1)) found
        ≡ option_map (pinned_at name.now) (reference.version_of version.now)) }
{
    match named_version(alloc, name, version)? {
        Some((name, version)) => Ok(Some((name, Some(version)))),
        None => Ok(None),
    }
}

// Whether a text is an expression. Fails when out of memory.
fn is_expression(alloc: Global, text: &str) -> Result<bool, AllocError>
    ensures { IfOk result (λ is. IsTrue is ↔ ((e : Tree) × IsExpression text.now e)) }
{
    let expression = Expression::parse(alloc, text)?;
    Ok(expression.is_some())
}
