//! Values of a description, be it JSON or TOML.
use std::alloc::{AllocError, Global};

/// A value of a description.
#[derive(Clone, Copy)]
pub(crate) enum Described<'v> {
    Json(&'v serde_json::Value),
    Toml(&'v toml::Value),
}

impl<'v> Described<'v> {
    /// The member of a key.
    pub(crate) fn get(self, key: &str) -> Option<Described<'v>> {
        match self {
            Described::Json(serde_json::Value::Object(members)) => match members.get(key) {
                Some(value) => Some(Described::Json(value)),
                None => None,
            },
            Described::Toml(toml::Value::Table(members)) => match members.get(key) {
                Some(value) => Some(Described::Toml(value)),
                None => None,
            },
            _ => None,
        }
    }

    /// The text that it is.
    pub(crate) fn as_text(self) -> Option<&'v str> {
        match self {
            Described::Json(serde_json::Value::String(text)) => Some(text.as_str()),
            Described::Toml(toml::Value::String(text)) => Some(text.as_str()),
            _ => None,
        }
    }

    /// Whether it says that there is nothing.
    pub(crate) fn is_null(self) -> bool {
        match self {
            Described::Json(serde_json::Value::Null) => true,
            _ => false,
        }
    }

    /// The keys of an object with their values, in the order of their bytes.
    pub(crate) fn members(
        self,
        alloc: Global,
    ) -> Result<Option<Vec<(&'v str, Described<'v>)>>, AllocError> {
        match self {
            Described::Json(serde_json::Value::Object(members)) => {
                let mut listed = Vec::new(alloc);
                for (key, value) in members.iter() {
                    listed.push((key.as_str(), Described::Json(value)))?;
                }
                Ok(Some(listed))
            }
            Described::Toml(toml::Value::Table(members)) => {
                let mut listed = Vec::new(alloc);
                for (key, value) in members.iter() {
                    listed.push((key.as_str(), Described::Toml(value)))?;
                }
                Ok(Some(listed))
            }
            _ => Ok(None),
        }
    }

    /// The items of a list.
    pub(crate) fn items(self, alloc: Global) -> Result<Option<Vec<Described<'v>>>, AllocError> {
        match self {
            Described::Json(serde_json::Value::Array(values)) => {
                let mut listed = Vec::new(alloc);
                for value in values {
                    listed.push(Described::Json(value))?;
                }
                Ok(Some(listed))
            }
            Described::Toml(toml::Value::Array(values)) => {
                let mut listed = Vec::new(alloc);
                for value in values {
                    listed.push(Described::Toml(value))?;
                }
                Ok(Some(listed))
            }
            _ => Ok(None),
        }
    }
}
