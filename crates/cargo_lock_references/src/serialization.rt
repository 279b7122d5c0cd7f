//! References in the formats of `serde`.

use crate::EncodableDependency;
use cargo_lock_parts::serialization::format_error;
use serde::{
    Described, Deserialize, DeserializeOwned, Deserializer, Format, Serialize, Serializer,
};
use std::alloc::Global;

impl Described for EncodableDependency {}

// A reference is serialized as its text.
impl Serialize for EncodableDependency {
    fn serialize<S: Serializer>(&self, out: &mut S) -> Result<(), S::Error> {
        out.collect_str(self)
    }
}

impl<'de> Deserialize<'de> for EncodableDependency {
    fn deserialize<F: Format>(
        alloc: Global,
        from: &mut Deserializer<'de, '_, F>,
    ) -> Result<EncodableDependency, F::Error> {
        DeserializeOwned::deserialize_owned(alloc, from)
    }
}

impl DeserializeOwned for EncodableDependency {
    fn deserialize_owned<F: Format>(
        alloc: Global,
        from: &mut Deserializer<'_, '_, F>,
    ) -> Result<EncodableDependency, F::Error> {
        let text = from.string(alloc)?;
        match EncodableDependency::from_str(alloc, text.as_str()) {
            Ok(reference) => Ok(reference),
            Err(fault) => Err(format_error(alloc, from, fault)),
        }
    }
}
