//! The rules by which callers are found.
use crate::names::Names;
use ckrt_look_recording::Rule;
use std::alloc::{AllocError, Global};

impl Names {
    /// How functions are left, once more.
    pub fn copied_rules(&self, alloc: Global) -> Result<Vec<Rule>, AllocError> {
        let mut rules = Vec::new(alloc);
        rules.extend_from_slice(self.rules.ups.as_slice())?;
        Ok(rules)
    }
}
