//! Packages of a dependency's own words: of its name, its version and, but for the commit, its
//! source.

ghost use Rattle.std.specs.Prelude.{◌≡◌, ℕ, IfOk, IsOkUnless, MatchOption, option_map};
ghost use Rattle.std.specs.Bool.{Decides};
ghost use Rattle.std.specs.List.{Contains};
ghost use Rattle.cargo_lock_parts.specs.SourceKey.{key_of};
ghost use Rattle.cargo_lock_parts.specs.declared.error.Error.TheVariants.{Memory};
ghost use Rattle.cargo_lock_edges.specs.Groups.{AreShared, IsOnlyPlace};
ghost use Rattle.cargo_lock_edges.specs.Nearest.{IsOfOwnWords, IsOfOwnWordsAt};
ghost use Rattle.cargo_lock_edges.specs.Nearest.{key_without_commit};

use crate::groups::{Groups, Named};
use cargo_lock_parts::dependency::Dependency;
use cargo_lock_parts::error::Result;
use cargo_lock_parts::package::{Package, SourceId};

impl<'a> Groups<'a> {
    /// The place of a package of a dependency's own words, whether or not it matches. `None` if there
    /// is none. The one error is `Memory`.
    ///
    /// ```
    /// let stated = groups.of_own_words(dependency)?;
    /// ```
    pub fn of_own_words(&self, dependency: &'a Dependency) -> Result<Option<usize>>
        ensures ok { IfOk result (λ found. MatchOption found
            ((k : ℕ) → ¬ IsOfOwnWordsAt self.now.packages dependency.now k)
            (IsOfOwnWordsAt self.now.packages dependency.now)) }
        ensures err { IsOkUnless result Memory }
    {
        match self.named(dependency) {
            Named::No => Ok(None),
            Named::Only(place) => self.only_of_own_words(dependency, place),
            Named::Several => self.own_of_several(dependency),
        }
    }

    // The place, whose package is the only one of a dependency's name and version, if it is of the
    // dependency's own words.
    fn only_of_own_words(&self, dependency: &Dependency, place: usize) -> Result<Option<usize>>
        requires { IsOnlyPlace self.now.packages dependency.now place }
        ensures ok { IfOk result (λ found. MatchOption found
            ((k : ℕ) → ¬ IsOfOwnWordsAt self.now.packages dependency.now k)
            (IsOfOwnWordsAt self.now.packages dependency.now)) }
        ensures err { IsOkUnless result Memory }
    {
        if self.is_of_own_words(dependency, place)? {
            Ok(Some(place))
        } else {
            Ok(None)
        }
    }

    // The same where several packages have the dependency's name and version.
    fn own_of_several(&self, dependency: &'a Dependency) -> Result<Option<usize>>
        requires { AreShared self.now dependency.now }
        ensures ok { IfOk result (λ found. MatchOption found
            ((k : ℕ) → ¬ IsOfOwnWordsAt self.now.packages dependency.now k)
            (IsOfOwnWordsAt self.now.packages dependency.now)) }
        ensures err { IsOkUnless result Memory }
    {
        match self.words_group(dependency) {
            Some(number) => self.own_among(dependency, self.places(number)),
            None => Ok(None),
        }
    }

    // The first of some places whose package is of the dependency's own words.
    fn own_among(&self, dependency: &Dependency, places: &[usize]) -> Result<Option<usize>>
        ensures ok { IfOk result (λ found. MatchOption found
            ((k : ℕ) → Contains places.now k
            → ¬ IsOfOwnWordsAt self.now.packages dependency.now k)
            (IsOfOwnWordsAt self.now.packages dependency.now)) }
        ensures err { IsOkUnless result Memory }
    {
        for place in places {
            if self.is_of_own_words(dependency, *place)? {
                return Ok(Some(*place));
            }
        }
        Ok(None)
    }
}

// Whether a package is of a dependency's own words.
pub(crate) fn is_of_own_words(dependency: &Dependency, package: &Package) -> Result<bool>
    ensures ok { IfOk result (λ is. Decides is (IsOfOwnWords dependency.now «package».now)) }
    ensures err { IsOkUnless result Memory }
{
    if dependency.matches(package) {
        have_one_source(&package.source, &dependency.source)
    } else {
        Ok(false)
    }
}

// Whether two sources are one but for commits.
fn have_one_source(one: &Option<SourceId>, other: &Option<SourceId>) -> Result<bool>
    ensures ok { IfOk result (λ same. Decides same
        (option_map key_without_commit one.now ≡ option_map key_without_commit other.now)) }
    ensures err { IsOkUnless result Memory }
{
    match (one, other) {
        (None, None) => Ok(true),
        (Some(one), Some(other)) => are_one_source(one, other),
        _ => Ok(false),
    }
}

// The same of sources that are there.
fn are_one_source(one: &SourceId, other: &SourceId) -> Result<bool>
    ensures ok { IfOk result
        (λ same. Decides same (key_without_commit one.now ≡ key_without_commit other.now)) }
    ensures err { IsOkUnless result Memory }
{
    let one = without_commit(one)?;
    let other = without_commit(other)?;
    Ok(one == other)
}

/// The source without its commit. The one error is `Memory`.
///
/// ```
/// let repository = without_commit(source)?;
/// ```
pub fn without_commit(source: &SourceId) -> Result<SourceId>
    ensures ok { IfOk result (λ bare. key_of bare ≡ key_without_commit source.now) }
    ensures err { IsOkUnless result Memory }
{
    if source.is_git() {
        source.with_precise(None)
    } else {
        Ok(source.clone()?)
    }
}
