//! Sources in the formats of `serde`.

use crate::package::source::SourceId;
use crate::serialization::format_error;
use serde::{
    Described, Deserialize, DeserializeOwned, Deserializer, Format, Serialize, Serializer,
};
use std::alloc::Global;

impl Described for SourceId {
    ghost use Rattle.std.specs.Prelude.{◌≡◌, true};
    ghost use Rattle.serde.specs.Event.{Logs, nothing};
    ghost use Rattle.cargo_lock_parts.specs.Source.{is_path};

    // The contract of `serde` has no clause for what it writes of a displayed value.
    ghost writes = { λ source old new. is_path source.kind ≡ true → Logs old new nothing };
}

// A source is serialized as its plain text, and a path source as nothing, like `None`.
impl Serialize for SourceId {
    fn serialize<S: Serializer>(&self, out: &mut S) -> Result<(), S::Error> {
        if self.is_path() {
            out.unit()
        } else {
            out.collect_str(self)
        }
    }
}

impl<'de> Deserialize<'de> for SourceId {
    fn deserialize<F: Format>(
        alloc: Global,
        from: &mut Deserializer<'de, '_, F>,
    ) -> Result<SourceId, F::Error> {
        DeserializeOwned::deserialize_owned(alloc, from)
    }
}

impl DeserializeOwned for SourceId {
    fn deserialize_owned<F: Format>(
        alloc: Global,
        from: &mut Deserializer<'_, '_, F>,
    ) -> Result<SourceId, F::Error> {
        let text = from.string(alloc)?;
        match SourceId::from_url(alloc, text.as_str()) {
            Ok(source) => Ok(source),
            Err(fault) => Err(format_error(alloc, from, fault)),
        }
    }
}
