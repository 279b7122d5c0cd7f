//! Archives that are passed over, since they lie where those of other registries do.

ghost use Rattle.std.specs.Prelude.{◌≡◌, ◌++◌, [], ◌∷◌, IfOk, OnOk, filter, length, map};
ghost use Rattle.cargo_lock_verify.specs.Archives as spec;
ghost use Rattle.cargo_lock_verify.specs.Archives.{archive_of, cache_of};

use crate::finding::Archive;
use crate::judge::Judge;
use crate::subject::Cache;
use std::alloc::{AllocError, Global};

/// How many archives are passed over. Fails when out of memory.
pub(crate) fn count_of_others(alloc: Global, cache: &Cache<'_, '_>) -> Result<usize, AllocError>
    ensures { IfOk result (λ count. count ≡ length (spec.archives_of_others (cache_of cache.now))) }
{
    let found = others_in(alloc, cache)?;
    Ok(found.len())
}

// The archives that are passed over.
fn others_in<'p, 'a>(alloc: Global, cache: &Cache<'p, 'a>) -> Result<Vec<&'a Archive>, AllocError>
    ensures { IfOk result (λ found. map (λ a. archive_of a.now) found.items
        ≡ spec.archives_of_others (cache_of cache.now)) }
{
    let mut found = Vec::new(alloc);
    for subject in cache.subjects {
        let judge = Judge::of(alloc, cache, subject.package)?;
        put_others(&mut found, &judge, &subject.archives)?;
    }
    Ok(found)
}

// Adds the archives of a package that are passed over.
fn put_others<'p, 'a>(
    found: &mut Vec<&'a Archive>,
    judge: &Judge<'p, 'a>,
    archives: &'a [Archive],
) -> Result<(), AllocError>
    ensures { OnOk result (map (λ a. archive_of a.now) found.new.items
        ≡ map (λ a. archive_of a.now) found.old.items
        ++ filter (spec.is_of_another judge.now.cache judge.now.content)
        (map archive_of archives.now)) }
{
    for archive in archives {
        put_other(found, judge, archive)?;
    }
    Ok(())
}

// Adds an archive of a package, if it is passed over.
fn put_other<'p, 'a>(
    found: &mut Vec<&'a Archive>,
    judge: &Judge<'p, 'a>,
    archive: &'a Archive,
) -> Result<(), AllocError>
    ensures { OnOk result (map (λ a. archive_of a.now) found.new.items
        ≡ map (λ a. archive_of a.now) found.old.items
        ++ filter (spec.is_of_another judge.now.cache judge.now.content)
        (archive_of archive.now ∷ [])) }
{
    if judge.is_of_another(archive) {
        found.push(archive)?;
    }
    Ok(())
}
