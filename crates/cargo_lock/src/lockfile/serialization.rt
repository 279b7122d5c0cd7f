//! Lockfiles in the formats of `serde`.

use crate::lockfile::Lockfile;
use cargo_lock_parts::serialization::format_error;
use serde::{
    Described, Deserialize, DeserializeOwned, Deserializer, Format, Serialize, Serializer,
};
use std::alloc::Global;
use toml::Table;

impl Described for Lockfile {}

// A lockfile is serialized as its table.
impl Serialize for Lockfile {
    fn serialize<S: Serializer>(&self, out: &mut S) -> Result<(), S::Error> {
        match self.to_table(*self.packages.allocator()) {
            Ok(table) => table.serialize(out),
            Err(_) => Err(out.custom("out of memory")),
        }
    }
}

impl<'de> Deserialize<'de> for Lockfile {
    fn deserialize<F: Format>(
        alloc: Global,
        from: &mut Deserializer<'de, '_, F>,
    ) -> Result<Lockfile, F::Error> {
        DeserializeOwned::deserialize_owned(alloc, from)
    }
}

impl DeserializeOwned for Lockfile {
    fn deserialize_owned<F: Format>(
        alloc: Global,
        from: &mut Deserializer<'_, '_, F>,
    ) -> Result<Lockfile, F::Error> {
        let table = Table::deserialize_owned(alloc, from)?;
        match Lockfile::from_table(alloc, &table) {
            Ok(lockfile) => Ok(lockfile),
            Err(fault) => Err(format_error(alloc, from, fault)),
        }
    }
}
