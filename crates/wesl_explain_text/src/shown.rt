//! What of a link is told.

/// What of a link is told as text: all, or what bears a name or stands in a module.
#[derive(Clone, Copy)]
pub struct Shown<'a> {
    /// The name of the declarations that are told.
    pub name: Option<&'a str>,
    /// The path of the module that is told.
    pub module: Option<&'a str>,
}

impl Shown<'_> {
    /// Whether all is told.
    pub fn is_all(&self) -> bool {
        self.name.is_none() && self.module.is_none()
    }

    /// Whether what stands in the module at a path is told.
    pub fn has_module(&self, path: &str) -> bool {
        match self.module {
            Some(wanted) => wanted == path,
            None => true,
        }
    }

    /// Whether what has a name is told.
    pub fn has_name(&self, name: &str) -> bool {
        match self.name {
            Some(wanted) => wanted == name,
            None => true,
        }
    }
}
