//! Lists the objects inside the templates of a list, as text.

use std::alloc::{AllocError, Global};
use tlv_core::{Objects, ReadFault, Tag};

/// Lists the objects inside the templates of a list, each as its tag and its value.
pub fn listed(alloc: Global, bytes: &[u8]) -> Result<String, ReadFault> {
    let mut text = String::new(alloc);
    // the objects in each template
    for object in Objects::over(bytes)? {
        if let Some(inside) = object.children() {
            for child in inside {
                push(alloc, &mut text, child.tag(), child.value())?;
            }
        }
    }
    Ok(text)
}

fn push(alloc: Global, text: &mut String, tag: Tag, value: &[u8]) -> Result<(), AllocError> {
    text.push_str(&hex::encode_upper(alloc, tag.bytes())?)?;
    text.push(' ')?;
    text.push_str(&hex::encode_upper(alloc, value)?)?;
    Ok(())
}
