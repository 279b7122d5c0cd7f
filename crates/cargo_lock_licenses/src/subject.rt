//! Packages and what their manifests say of licences.

ghost use Rattle.std.specs.Prelude.{◌≡◌, is_some};
ghost use Rattle.cargo_lock_licenses.specs.Subjects.{is_same, license_subject_of, manifest_of};

use cargo_lock_parts::package::Package;

/// What a manifest says of the licence of its package.
#[derive(Drop)]
pub struct Manifest {
    /// The field `license`, which is to be an expression.
    pub license: Option<String>,

    /// The field `license-file`, the path of a text.
    pub license_file: Option<String>,
}

impl Manifest {
    // Whether both say the same.
    pub(crate) fn is_same(&self, other: &Manifest) -> bool
        ensures { result ≡ is_same (manifest_of self.now) (manifest_of other.now) }
    {
        self.license == other.license && self.license_file == other.license_file
    }
}

/// A package, and what was found of its manifests.
#[derive(Drop)]
pub struct Subject<'a> {
    /// The package.
    pub package: &'a Package,

    /// The manifests. Which are of its name and version is for the caller to say.
    pub manifests: Vec<Manifest>,
}

impl Subject<'_> {
    // Whether the package has a source.
    pub(crate) fn has_source(&self) -> bool
        ensures { result ≡ is_some (license_subject_of self.now).content.source }
    {
        let package = self.package;
        package.source.is_some()
    }
}
